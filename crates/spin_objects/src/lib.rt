//! What handlers and guards are, what a raise gives, and the doing of acts.
//!
//! - [`Item`] is one thing that a raise gives, and an [`Outcome`] all that it gives in order;
//! - [`run_act`] does acts, and [`run_step`] one step of one; the steps that read headers are in `layer`;
//! - a [`Handler`] or a [`Guard`] is an object of another's making that does an act or asks a test;
//! - [`Natives`] are such objects by name, each with the data that it was handed in with (`pair`);
//! - a [`Body`] is a handler, and a [`Check`] a guard, as it is handed to a catalogue;
//! - a [`Catalogue`] has the handlers and guards that bindings name by their numbers.
#![tactic(auto)]

mod catalogue;
mod item;
mod kinds;
mod layer;
mod limits;
mod natives;
mod object;
mod pair;
mod run;
mod unit;

pub use catalogue::Catalogue;
pub use item::{Item, Outcome};
pub use kinds::{MAX_NATIVES, NativeFault, NativeKind};
pub use limits::limits_are_stated;
pub use natives::Natives;
pub use object::{Guard, Handler};
pub use run::{run_act, run_step};
pub use unit::{Body, CatalogueFault, Check, MAX_UNITS};
