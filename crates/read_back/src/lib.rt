//! What is written of a job is read back as that job: its header line, the text of a job that is
//! made, with its events, and the plain job of a group that is cleared of wishes. What `party deal`
//! writes of an offer and of the rows that `party keys` writes, in any order, is the header line of
//! the job that is made of the offer with the parties' seeds.
//!
//! Read `specs/Headers.antt` first, then `specs/Made.antt`, `specs/ClearedJobs.antt` and
//! `specs/Texts.antt`.
#![tactic(auto)]

mod cleared_jobs;
mod headers;
mod laws;
mod made;

pub use cleared_jobs::{
    cleared_groups_are_made, cleared_groups_are_plain_jobs, cleared_groups_are_plain_offers,
    only_seeds_are_added, seeded_line_is_one_line, seeded_line_reads, seeded_text_is_plain_job,
};
pub use headers::{header_is_one_line, header_is_read_back, header_reads, read_is_showable};
pub use laws::{deals_of_rows_are_made, keys_give_rows};
pub use made::{
    generated_run_is_summed, generated_text_is_read_back, made_header_is_one_line,
    made_header_is_read_back, made_header_reads, made_output_is_read_back, made_text_is_read_back,
    program_has_texts, text_has_one_story, text_is_its_lines, whole_text_has_one_story,
};
