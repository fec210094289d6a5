//! What only a test catches, or what rows of [`spin_driver`](../spin_driver/README.md) would make no cheaper: pens that
//! share a log, seats that share a hub, jobs, whole runs whose lanes are held up at a gate, endpoints and sinks that
//! fail, natives that are asked and dropped. Calls whose answer is one line are rows of that program. Each public call
//! that may want memory is made once with ample memory, here, there, by the program on a worked case or, for hosts in C,
//! by `bindings/check`.
//!
//! There is no code here but tests. The definitions that say what the calls mean are those of the crates below.
//!
//! - of logs, seats and lanes: [`logs`], [`seats`], [`renewed_hubs`], [`lanes`];
//! - of jobs and tasks, and of whole runs that are held up: [`jobs`], [`executor`], [`runs`];
//! - of the outside: [`outside`], [`adapters`], [`endpoints`], [`natives`];
//! - of runs over it: [`filter`], [`faults`], [`top`];
//! - what several of these use: [`texts`], [`captures`], [`noting`] with an endpoint, [`gates`] with a gate.
#![tactic(auto)]

#[cfg(test)]
mod adapters;
#[cfg(test)]
mod captures;
#[cfg(test)]
mod endpoints;
#[cfg(test)]
mod executor;
#[cfg(test)]
mod faults;
#[cfg(test)]
mod filter;
#[cfg(test)]
mod gates;
#[cfg(test)]
mod jobs;
#[cfg(test)]
mod lanes;
#[cfg(test)]
mod logs;
#[cfg(test)]
mod natives;
#[cfg(test)]
mod noting;
#[cfg(test)]
mod outside;
#[cfg(test)]
mod renewed_hubs;
#[cfg(test)]
mod runs;
#[cfg(test)]
mod seats;
#[cfg(test)]
mod texts;
#[cfg(test)]
mod top;
