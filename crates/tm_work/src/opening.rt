//! A board that is about to be shared, with the ledger for its seats.
//!
//! [`Opening::new`] comes before the call that is generic in the desk's identity, so that the contract of this call
//! can speak of the board and of the identity that the ledger can get. [`Opening::named`] then gives both to the
//! desk. No seat is made here.

ghost use Rattle.std.specs.Prelude.{◌≡◌, [], IfErr, IfOk};
ghost use Rattle.tm_work.specs.Faults.{IsNoMemory, board_in};

use crate::fault::WorkFault;
use crate::progress::Progress;
use std::alloc::Global;
use std::marker::Model;
use tm_hist::Board;
use tm_ledger::{Ledger, LedgerIdentity, UnnamedLedger};

/// A board, and an empty ledger for what its seats will know. Contracts see both: the identity that the ledger can get,
/// and the board.
#[derive(Drop)]
pub struct Opening {
    unnamed: UnnamedLedger<Progress>,
    board: Board,
}

impl Model for Opening {
    ghost use Rattle.atomic_table.specs.Seated.{table_id_coded};
    ghost use Rattle.tm_hist.specs.contracts.board.Board.{the_row as board_row};
    ghost use Rattle.tm_work.specs.Opening.{NamedBoard, named_board_code};

    ghost Value = { NamedBoard };

    ghost coded = { named_board_code table_id_coded board_row.coded };

    ghost view = { λ o. record { table = o.unnamed; given = o.board } };
}

impl Opening {
    /// Takes a board that is to be shared. `NoMemory` (61), with the board as it was.
    pub fn new(alloc: Global, board: Board) -> Result<Opening, WorkFault>
        ensures given { IfOk result (λ o. o.given ≡ board) }
        ensures refused { IfErr result (λ e. IsNoMemory e × (board_in e ≡ board)) }
    {
        match UnnamedLedger::new(alloc) {
            Ok(unnamed) => Ok(Opening { unnamed, board }),
            Err(_) => Err(WorkFault::NoMemory(board)),
        }
    }

    /// The board as it was.
    pub fn into_board(self) -> Board
        ensures { result ≡ self.given }
    {
        self.board
    }

    // The ledger under its identity, and the board.
    pub(crate) fn named<J: LedgerIdentity>(self) -> (Ledger<J, Progress>, Board)
        requires { self.table ≡ J.table }
        ensures ledger { result.0 ≡ [] }
        ensures board { result.1 ≡ self.given }
    {
        let Opening { unnamed, board } = self;
        (unnamed.named::<J>(), board)
    }
}
