//! The commands `verify` and `migrate`: a certificate is read, tested, and rewritten in version 2.
//!
//! Both read a specification, then a certificate (`specs/CertificateStage.antt`), and test it
//! against the specification (`specs/Tested.antt`). `specs/VerifyCommand.antt` and
//! `specs/MigrateCommand.antt` say what each prints of a valid one. What is valid is sound, whoever
//! made it; `laws` says so in terms of the files, that a call whose files are known has one
//! outcome, and which certificates are found valid; `samples` says that what `sample` wrote is
//! among them. Nothing is written before all of the text is made. No clause says that memory
//! suffices.
#![tactic(auto)]

pub mod laws;
pub mod migrate;
mod refusals;
pub mod samples;
mod stage;
mod tested;
pub mod verify;
