// Document 01's cases, run: each line names a case and says what the calls answer. The file stdout has what they should.
#![tactic(auto)]

mod circles;
mod drawings;
mod forms;
mod kernels;
mod listings;
mod say;
mod screens;
mod tags;

use std::io;

fn main(rt: HostRuntime) -> io::Result<()> {
    kernels::numbers(&rt)?;
    kernels::makers(&rt)?;
    kernels::points_and_sides(&rt)?;
    kernels::checks(&rt)?;
    kernels::ends(&rt)?;
    kernels::standing_ends(&rt)?;
    kernels::signs(&rt)?;
    kernels::orders(&rt)?;
    kernels::sides(&rt)?;
    kernels::frame_sides(&rt)?;
    kernels::crossings(&rt)?;
    kernels::on_one_line(&rt)?;
    kernels::shared_points(&rt)?;
    circles::sides(&rt)?;
    circles::on_one_line(&rt)?;
    circles::refusals(&rt)?;
    drawings::reading(&rt)?;
    drawings::groups(&rt)?;
    drawings::short_drawings(&rt)?;
    drawings::after_the_last(&rt)?;
    drawings::limits(&rt)?;
    drawings::writing(&rt)?;
    drawings::refused_writing(&rt)?;
    listings::every_pair(&rt)?;
    listings::one_object(&rt)?;
    listings::joints(&rt)?;
    tags::makers(&rt)?;
    tags::nothing_else(&rt)?;
    tags::refusals(&rt)?;
    tags::writing(&rt)?;
    forms::reading(&rt)?;
    forms::heads(&rt)?;
    forms::writing(&rt)?;
    forms::moves(&rt)?;
    forms::refused_moves(&rt)?;
    forms::which(&rt)?;
    screens::edges(&rt)?;
    screens::corners(&rt)?;
    screens::every_end(&rt)?;
    screens::line_ends(&rt)?;
    screens::side_ends(&rt)?;
    screens::positions(&rt)?;
    screens::points(&rt)?;
    screens::boxes(&rt)?;
    screens::refused_boxes(&rt)
}
