// A session: its docket, its table, the file numbers accepted, and how it stands.
ghost use Rattle.std.specs.Prelude.{◌<◌};
ghost use Rattle.session.specs.Senders.{SenderValue};

use clearing::covers::Covers;
use clearing::place::MEMBERS;
use std::marker::Model;
use table::table::Table;
use terms::docket::Docket;

pub mod admit;
pub mod intake;
pub mod mark;
pub mod opening;
pub mod places;
pub mod questions;
pub mod rows;
pub mod settle;

// The last accepted file number of each kind from one member; 0 before the first.
#[derive(Clone, Copy, Default)]
pub struct FileNumbers {
    presentations: u8,
    returns: u8,
}

#[derive(Drop)]
pub struct Session {
    docket: Docket,
    table: Table,
    // By the member's place on the roll.
    numbers: [FileNumbers; MEMBERS],
    // No `Option` of the covers: the last clearing's stay readable by place after a file has ended the cleared state.
    cleared: bool,
    covers: Covers,
}

// The member that sends a file: its code and its place on the roll, which the check of the file found.
#[derive(Clone, Copy)]
pub struct Sender {
    code: u16,
    place: u8,
}

impl Model for Sender {
    ghost Value = { SenderValue };

    ghost view = { λ s. record { code = s.code; place = s.place } };

    ghost invariant = { λ s. s.place < 64 };

    ghost inverse = { λ v. record { code = v.code; place = v.place } };
}

// How many rows of an accepted file were taken, and how many got a code.
#[derive(Clone, Copy)]
pub struct Taken {
    pub taken: usize,
    pub turned_away: usize,
}
