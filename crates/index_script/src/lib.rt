//! The engine of scripts: it reads lines, makes the calls that they ask for on an ordered index, and
//! writes the replies. A program hands it a reader and a writer ([`run`](run::run)).
#![tactic(auto)]

pub mod line;
pub mod reply;
pub mod request;
pub mod run;
pub mod script;
pub mod words;
