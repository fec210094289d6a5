//! A raise with its raises upwards, and the work of jobs, each on one version.
//!
//! - a [`Deed`] is what is asked, a raise or a raise that is left to a job, and a [`JobCall`] what a job is to do;
//! - a [`Reply`] is what it comes to: the answer, the steps and the calls of jobs; a [`ReplyView`] is one that is lent;
//! - [`path`] does deeds and [`job_path`] the calls of jobs, over `rising`, which goes from handler to handler and up;
//! - `turning` does the next handler of a raise, whose steps `noting` puts into a `walk`, which counts the handlers.
#![tactic(auto)]

mod deed;
mod deed_reply;
mod jobs;
mod law;
mod limits;
mod noting;
mod reply;
mod reply_buffer;
mod rising;
mod turning;
mod view;
mod walk;

pub use deed::{Job, JobCall, JobCalls, Jobs};
pub use deed_reply::path;
pub use jobs::job_path;
pub use law::renamed_states_reply_alike;
pub use limits::limits_are_stated;
pub use reply::{MAX_RUNS, Reply, Step, Trace};
pub use reply_buffer::{ReplyBuffer, path_into};
pub use spin_word::Deed;
pub use view::ReplyView;
