//! Entries that are lent.

ghost use Rattle.std.specs.Prelude.{◌≡◌};
ghost use Rattle.spin_report.specs.Jobs.{answer_calls};
ghost use Rattle.spin_report.specs.Views.{answer_steps};

use crate::entry::{Entry, What};
use spin_proto::{JobCall, ReplyView, Step};
use spin_table::Verdicted;
use spin_word::{Command, Deed};
use std::marker::Model;

/// What was asked, and its answer, of which each is lent: the cases of [`What`].
#[derive(Drop, Debug)]
pub enum LentWhat<'a> {
    /// A command, and what became of it.
    Command(&'a Command, &'a Verdicted),
    /// A deed, and what it came to.
    Deed(&'a Deed, ReplyView<'a>),
}

/// What was asked, and its answer, lent. Contracts see the [`What`].
#[derive(Drop, Debug)]
pub struct WhatView<'a> {
    /// How it is lent.
    pub lent: LentWhat<'a>,
}

impl<'a> Model for WhatView<'a> {
    ghost use Rattle.spin_report.specs.declared.entry.What.{What};
    ghost use Rattle.spin_report.specs.Views.{what_lent};

    ghost Value = { What };

    ghost view = { λ v. what_lent v.lent };
}

/// One entry of a history, of which what was asked and answered is lent. Contracts see the [`Entry`].
#[derive(Drop, Debug)]
pub struct EntryView<'a> {
    /// The place: how many commands were accepted up to here, this one included.
    pub place: u16,
    /// The lane that asked, counted from 0.
    pub lane: u8,
    /// The line of the script, counted from 1.
    pub line: u32,
    /// Which part of a line of packets it is, counted from 1; 0 for every other line.
    pub part: u32,
    /// What was asked, and its answer.
    pub what: WhatView<'a>,
}

impl<'a> Model for EntryView<'a> {
    ghost use Rattle.spin_report.specs.declared.entry.Entry.{Entry};

    ghost Value = { Entry };

    ghost view = { λ v. record {
      place = v.place;
      lane = v.lane;
      line = v.line;
      part = v.part;
      what = v.what;
    } };
}

impl What {
    /// What was asked, and its answer, lent.
    #[inline]
    pub fn view(&self) -> WhatView<'_>
        ensures { result ≡ self.now }
    {
        let lent = match self {
            What::Command(command, verdict) => LentWhat::Command(command, verdict),
            What::Deed(deed, reply) => LentWhat::Deed(deed, reply.view()),
        };
        WhatView { lent }
    }
}

impl Entry {
    /// The entry, lent.
    #[inline]
    pub fn view(&self) -> EntryView<'_>
        ensures { result ≡ self.now }
    {
        EntryView {
            place: self.place,
            lane: self.lane,
            line: self.line,
            part: self.part,
            what: self.what.view(),
        }
    }
}

impl<'a> WhatView<'a> {
    /// The steps of a deed's reply, of which there are none where it wasn't done; none of a command.
    #[inline]
    pub fn steps(&self) -> &'a [Step]
        ensures { result.now ≡ answer_steps self.now }
    {
        match &self.lent {
            LentWhat::Command(_, _) => &[],
            LentWhat::Deed(_, reply) => reply.trace(),
        }
    }

    /// The calls that the answer leaves to jobs.
    #[inline]
    pub fn calls(&self) -> &'a [JobCall]
        ensures { result.now ≡ answer_calls self.now }
    {
        match &self.lent {
            LentWhat::Command(_, _) => &[],
            LentWhat::Deed(_, reply) => reply.calls(),
        }
    }
}
