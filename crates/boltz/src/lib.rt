//! The top call: a command's words, its files and its output.
//!
//! What each clause of `run::run` promises:
//!
//! - `ends`: every call ends with an outcome that its words and files have (`specs/Answers.antt`).
//!   The whole text of the outcome was written; or memory ran out, or a write failed in the call,
//!   and a prefix was written (`call_stages`, `specs/Ends.antt`). The sweeps and evaluations that
//!   the call made, its steps, are no more than the outcome may take. Where objects were drawn, a
//!   course of turns lies behind the text: for every list of numbers in the cells of its finished
//!   attempts the ideal sampler, knowing the generating functions exactly, keeps the printed
//!   objects, or those that `bulk` counted, in order. The course was given a list of bits, the
//!   tape's first ones where the tape is known, which its cells spell; over every tape that begins
//!   with them it is the one that they fix, by the levels of the base (`sample_command`,
//!   `specs/Drawn.antt`; `bulk_command`, `specs/BulkCommand.antt`), with `--fast` from the base's
//!   fast vector (`sample_command`, `specs/Starts.antt`). A level is raised only for the bits that
//!   one number of a choice node was given: one for each ten of them begun (`size_window`,
//!   `specs/Trace.antt`). Each drawing of a pool is the one of its tape alone, and the line of the
//!   order is that of the schedule's bytes and the printed closings (`pool_command`,
//!   `specs/PoolCommand.antt`). Where `verify` or `migrate` is done, every test of the certificate
//!   passes and it is sound, whoever made it: its base bounds the generating functions, and the
//!   ideal sampler makes each printed object from every list of numbers in its cells
//!   (`certificate_commands`, `specs/Tested.antt`; `certificate`, `specs/Soundness.antt`). An
//!   object's chance, counts and ranks are those of the definitions in `chance_law` and
//!   `rank_tables`, and a pointed specification that of `pointing`.
//! - `exact`: where the files that the words ask to read are known and no read of them failed, and
//!   no write failed, the call ends for want of memory or with any outcome that is none. So there
//!   is one status with one text, and each status comes exactly where its outcome is.
//! - `unread`: nothing is read for words that are refused.
//! - `content`, `counts`, `writes`: no call changes what a shelf holds or lowers a count of faults.
//!
//! The laws of `laws` say which outcome a call has: what is printed, refused, bounded, drawn and
//! counted. No clause says that memory suffices, how long a call takes, or that the bits of a tape
//! are random.
//!
//! To believe it, read in this order: `specs/Answers.antt` (one line for each command); in
//! `call_stages` `specs/Stages.antt`, `specs/Lines.antt` and `specs/Refusals.antt` (printed bytes)
//! and `specs/Ends.antt`; in `certificate` `specs/Lines.antt`, `specs/Certificates.antt` and
//! `specs/Headers.antt` (printed bytes); the file of each command (`specs/SpecCommand.antt`,
//! `specs/OracleCommand.antt`; in `sample_command` `specs/SampleCommand.antt`, `specs/Starts.antt`
//! and `specs/Drawn.antt`; in `pool_command` `specs/PoolCommand.antt` and `specs/Schedule.antt`; in
//! `certificate_commands` `specs/CertificateStage.antt`, `specs/Tested.antt` and the file of each;
//! in `bulk_command` `specs/BulkCommand.antt`; in `point_command` and `chance_command` theirs; in
//! `rank_commands` `specs/RankStages.antt` and the file of each); and the clauses of `run`.
#![tactic(auto)]

pub mod laws;
mod oracle;
pub mod run;
mod spec;
