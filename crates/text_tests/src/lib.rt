//! Tests of the texts: how files are read and written, lines and words, placements, calls, schedules, sketches, reports and the checks of a
//! report; and of the one-thread table, whose replies a report tells.
//!
//! The crate holds nothing but tests, and nothing stands on it. It tests `rl_io` (`files`), `rl_text` (`lines`), `rl_model`
//! (`table`), `rl_place` (`places`, `place_faults`), `rl_ops` (`calls`, `batches`, `schedules`), `rl_report` (`reports`,
//! `report_faults`, `merging`), `rl_check` (`checks`), `rl_names` (`names`) and `rl_sketch` (`sketches`) by their public calls.
//!
//! The values that are expected were worked out by hand from what the formats say (FORMATS in `docs/`), or are the outside's own, as
//! `/dev/null` is empty. What the contracts say for all texts is proved in the crates themselves; here it is seen that they mean
//! what was meant, and that each call succeeds.
#![tactic(auto)]

#[cfg(test)]
mod batches;
#[cfg(test)]
mod calls;
#[cfg(test)]
mod checks;
#[cfg(test)]
mod faults;
#[cfg(test)]
mod files;
#[cfg(test)]
mod lines;
#[cfg(test)]
mod merging;
#[cfg(test)]
mod names;
#[cfg(test)]
mod place_faults;
#[cfg(test)]
mod places;
#[cfg(test)]
mod report_faults;
#[cfg(test)]
mod report_texts;
#[cfg(test)]
mod reports;
#[cfg(test)]
mod samples;
#[cfg(test)]
mod schedules;
#[cfg(test)]
mod sketches;
#[cfg(test)]
mod table;
