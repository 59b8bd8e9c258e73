//! The steps of a board that are told, behind its run: a board keeps steps and outcomes, but no reasons.
//!
//! [`tell_history`] has them made again from the first one, on a machine of its own, and prints each abort as its step
//! is made. The board stays as it is. Whether its history ends as it did is not asked here: `elide_replay` does.

ghost use Rattle.std.specs.Prelude.{◌≡◌, ◌<◌, ℕ, IfErr, IfOk, List, length};
ghost use Rattle.text_out.specs.Writing.{Wrote};
ghost use Rattle.elide_why.specs.Refused.{IsNotRetold};
ghost use Rattle.tm_core.specs.Theorem.{ShownMachine as Machine};
ghost use Rattle.tm_model.specs.declared.outcome.Pick.{Pick};

use crate::placed::NamedPlaces;
use crate::teller::Teller;
use crate::telling::{StepTeller, Telling};
use elide_device::{Gathered, Progress};
use elide_setup::{Refusal, machine_like, walk_history};
use std::alloc::Global;
use text_out::Out;
use tm_hist::Board;

/// Makes the steps of a board again on a machine of their own, and prints the line of each abort with its reason on
/// this page, which it gives back.
pub fn tell_history<O: Out + Drop, G: Progress>(
    alloc: Global,
    board: &Board,
    path: &str,
    places: &NamedPlaces,
    page: Gathered<O>,
    progress: &mut G,
) -> Result<Gathered<O>, Refusal>
    ensures told { IfOk result (λ given. (text : List ℕ)
        × Wrote (⟦<Gathered<O> as Out>⟧.device page) (⟦<Gathered<O> as Out>⟧.device given) text) }
    ensures refused { IfErr result (IsNotRetold board.now.limits) }
{
    let machine = machine_like(alloc, board.program(), board.limits())?;
    let limits = board.limits();
    let teller = Teller::new(alloc, board.program(), limits, path, &places.places, false)?;
    let telling = Telling {
        machine,
        teller: teller.naming(places.names),
        page,
    };
    tell_steps(board, telling, progress)
}

// Makes them on a machine with the cores of the board's program, so that no step is refused for its core.
fn tell_steps<T: StepTeller + Drop, O: Out + Drop, G: Progress>(
    board: &Board,
    telling: Telling<T, O>,
    progress: &mut G,
) -> Result<Gathered<O>, Refusal>
    requires { length telling.machine.views ≡ length board.now.program.entries }
    ensures told { IfOk result (λ given. (text : List ℕ)
        × Wrote (⟦<Gathered<O> as Out>⟧.device telling.page) (⟦<Gathered<O> as Out>⟧.device given) text) }
    ensures refused { IfErr result (λ why. (machine : Machine) × (pick : Pick) × (pick.core < length machine.views)
        × T.refuses machine pick why) }
{
    let mut telling = telling;
    walk_history(board, &mut telling, progress)?;
    let Telling { page, .. } = telling;
    Ok(page)
}
