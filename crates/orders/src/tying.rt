// The records of one bus with the lines', and how an order of them ends.
ghost use Rattle.std.specs.Prelude.{◌≡◌, ◌≤◌, length};
ghost use Rattle.meaning.specs.Meaning.{F, L, most};

use crate::{MOST_BUS, MOST_LINE, Records};
use controls::Controls;
use record::{Board, Skeleton};

// No more than may share a stamp, and each in its array. What a bus has room for is the most of F, which is that of E.
#[derive(Clone, Copy)]
pub(crate) struct Tied {
    pub(crate) buses: Records<MOST_BUS>,
    pub(crate) lines: Records<MOST_LINE>,
    pub(crate) board: Board,
    pub ghost buses_few: { buses.count ≤ most F },
    pub ghost buses_in: { buses.count ≤ length buses.records },
    pub ghost lines_few: { lines.count ≤ most L },
    pub ghost lines_in: { lines.count ≤ length lines.records },
}

// The controls, and the bus records' replies.
#[derive(Clone, Copy)]
pub(crate) struct Outcome {
    pub(crate) controls: Controls,
    pub(crate) replies: [Skeleton; MOST_BUS],
    pub ghost room: { length replies ≡ most F },
}
