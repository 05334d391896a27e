// The kernel: ends, order, turn, side, crossing and side of circle of the objects and points of a sheet. Every public call takes any numbers.
//
// What R is. A sheet stands in a square frame, from -R to R in x and in y. Rays and lines go on to the frame and end there. Such an end is
// no pair of plain numbers, since it moves as R grows. It moves evenly, and so a point is five whole numbers (mx, nx, my, ny, w): at R it
// is at x = (mx R + nx)/w, y = (my R + ny)/w. A standard point has mx = my = 0 and stays where it is. A point on the frame has x or y
// exactly R or -R. There m of the other coordinate tells the direction that led to it, and n tells the ends of parallel lines apart.
//
// Why a sign is that of a coefficient. R is larger than any number of a sheet, and the code has no value for it. What is asked of points is
// the sign of a sum of products of their coordinates, with every w, which is above 0, multiplied out. That is a polynomial in R with whole
// coefficients: a R + b for the order of two coordinates, a R R + b R + c for the turn of three points. Where R is larger than the size of
// each lower coefficient, the sign is that of the highest coefficient that is not 0: an a that is not 0 is 1 or more in size, so a b of a
// size below R cannot change the sign of a R + b; and a R R + b R + c is (a R + b) R + c, which is the same step again. Where all are 0 the
// sign is 0. So the code works out the coefficients, which do not depend on R, and looks at them from the highest on (`lead`). A fixed
// large number for R would not do: with one that is large enough products pass the largest i64, and with a smaller one signs can be wrong.
//
// Why the numbers fit i64. Objects and points have limits, which stand at `Object` and `Point` in crate sheet. Coordinates are within
// 2,000, and so directions within 4,000. A standard point has w up to 32,000,000 and n within 64,000,000,000: a coefficient of the order of
// two is at most 2 x 64,000,000,000 x 32,000,000 = 4,096,000,000,000,000,000. A narrow point has w up to 4,000 and n within 8,000,000: a
// coefficient of a turn is at most 6 x 4,000 x 8,000,000 x 8,000,000 = 1,536,000,000,000,000,000. The largest i64 is
// 9,223,372,036,854,775,807. A turn of wider points would not fit, and is refused (6). The ends of objects are narrow; the point that two
// objects share may be wide, and order and side take it all the same.
//
// From which R on. For every whole R of 2,000,000,000,000,000,000 or more, which is above all lower coefficients of a turn, the answers are
// those of ordinary geometry on the sheet cut at the square from -R to R. Crate cut proves it of the definitions, and crate demand of the
// code. All but the turn hold from 1,000,000,000,000,000 on, as crate cut shows.
//
// The side of circle goes another way: its coefficients do not fit, and circle.rt says how its sign is found without them.
#![tactic(auto)]

pub mod circle;
pub mod crossing;
mod divide;
pub mod ends;
mod far;
mod joint;
mod lead;
mod oneline;
pub mod points;
mod sides;
pub mod signs;
mod stretches;
