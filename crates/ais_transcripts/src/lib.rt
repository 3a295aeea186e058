// Images of source 000, an image run in flash mode, and what is shown of a run.
#![tactic(auto)]

pub mod ends;
pub mod images;
pub mod runs;
pub mod text;
