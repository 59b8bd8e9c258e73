//! The ledger, before and after it has a name, and the tokens of its lines.

ghost use Rattle.std.specs.Prelude.{◌≡◌, ℕ, [], ◌∷◌, ◌++◌, length, Some, slice_get, slice_set, IfSome};
ghost use Rattle.tm_ledger.specs.Rules.{keeper_of, token_of};

use crate::rule::{Hands, LedgerTable, Notes, Opens, SeatView};
use atomic_table::Seat;
use std::alloc::{AllocError, Global};
use std::marker::{Brand, Model, PhantomData};

/// Which ledger it is. Each call of a function generic in it picks the table of the unnamed ledger that it passes.
pub trait LedgerIdentity {
    ghost use Rattle.atomic_table.specs.Seated.{TableId};

    ghost table: { TableId };
}

impl LedgerIdentity for Brand {
    ghost use Rattle.std.specs.Prelude.{[]};

    ghost table = { record { words = 0; slots = 0; views_name = 0; atom = 0; block = 0; offset = 0; slot_names = [] } };
}

/// An empty ledger that has no name yet. Contracts see it as the name that it can get.
#[derive(Drop)]
pub struct UnnamedLedger<M: Drop> {
    table: LedgerTable<M>,
    keeper: Seat<M, SeatView<M>>,
}

impl<M: Drop> Model for UnnamedLedger<M> {
    ghost use Rattle.std.specs.Prelude.{◌≡◌, []};
    ghost use Rattle.atomic_table.specs.Seated.{TableId, table_id_coded};
    ghost use Rattle.tm_ledger.specs.Rules.{keeper_of};

    ghost Value = { TableId };

    ghost view = { λ b. b.table.shared.table_id };

    ghost invariant = { λ b. (b.table.shared.table_id.words ≡ 1)
        × (b.keeper.table_id ≡ b.table.shared.table_id)
        × (b.keeper.me ≡ (keeper_of [], [])) };

    ghost coded = { table_id_coded };
}

impl<M: Drop> UnnamedLedger<M> {
    /// An empty ledger; the one call here that takes memory, and it refuses only for want of it.
    pub fn new(alloc: Global) -> Result<UnnamedLedger<M>, AllocError> {
        let (table, keeper) = LedgerTable::<M>::of_words(alloc, &[0], &())?;
        Ok(UnnamedLedger { table, keeper })
    }

    /// The ledger under its name, with no line.
    pub fn named<J: LedgerIdentity>(self) -> Ledger<J, M>
        requires { self ≡ J.table }
        ensures { result ≡ [] }
    {
        let UnnamedLedger { table, keeper } = self;
        Ledger {
            table,
            keeper,
            name: PhantomData,
        }
    }
}

/// A ledger. Contracts see it as the progress of each line, from line 0 on.
#[derive(Drop)]
pub struct Ledger<J: LedgerIdentity, M: Drop> {
    table: LedgerTable<M>,
    keeper: Seat<M, SeatView<M>>,
    name: PhantomData<J>,
}

impl<J: LedgerIdentity, M: Drop> Model for Ledger<J, M> {
    ghost use Rattle.std.specs.Prelude.{◌≡◌, [], List};
    ghost use Rattle.tm_ledger.specs.Rules.{keeper_of};

    ghost Value = { List M };

    ghost view = { λ b. b.keeper.me.0.all };

    ghost invariant = { λ b. (b.table.shared.table_id ≡ J.table)
        × (b.table.shared.table_id.words ≡ 1)
        × (b.keeper.table_id ≡ b.table.shared.table_id)
        × (b.keeper.me ≡ (keeper_of b.keeper.me.0.all, [])) };
}

/// The right to one line of a ledger. There is one token a line. Contracts see it as the line's number and its
/// progress.
#[derive(Drop)]
pub struct Token<J: LedgerIdentity, M: Drop> {
    seat: Seat<M, SeatView<M>>,
    name: PhantomData<J>,
}

impl<J: LedgerIdentity, M: Drop> Model for Token<J, M> {
    ghost use Rattle.std.specs.Prelude.{◌≡◌, ℕ, [], Option, Some};
    ghost use Rattle.tm_ledger.specs.Rules.{token_of};

    ghost Value = { ℕ × Option M };

    ghost view = { λ t. (t.seat.me.0.line, t.seat.me.0.progress) };

    ghost invariant = { λ t. (t.seat.table_id ≡ J.table)
        × (t.seat.me ≡ (token_of t.seat.me.0.line t.seat.me.0.progress, []))
        × ((m : M) × (t.seat.me.0.progress ≡ Some m)) };
}

impl<J: LedgerIdentity, M: Drop> Ledger<J, M> {
    /// Writes a further line, with this progress, and gives out its token.
    pub fn open(&mut self, first: &M) -> Token<J, M>
        ensures ledger { self.new ≡ self.old ++ first.now ∷ [] }
        ensures token { result ≡ (length self.old, Some first.now) }
    {
        let Ledger { table, keeper, .. } = self;
        let steps = &table.shared;
        steps.compare_exchange_with::<Opens>(keeper, 0, 0, 0, first);
        let seat = steps.split_seat::<Hands>(keeper);
        Token {
            seat,
            name: PhantomData,
        }
    }

    /// Writes this progress into the token's line, which had the progress that the token carried. The token comes back
    /// with the new one.
    pub fn note(&mut self, token: Token<J, M>, now: &M) -> Token<J, M>
        ensures was { IfSome token.1 (λ m. slice_get self.old token.0 ≡ Some m) }
        ensures ledger { self.new ≡ slice_set self.old token.0 now.now }
        ensures token { result ≡ (token.0, Some now.now) }
    {
        let Token { seat, name } = token;
        let Ledger { table, keeper, .. } = self;
        let steps = &table.shared;
        steps.join_seat::<Hands>(keeper, seat);
        steps.compare_exchange_with::<Notes>(keeper, 0, 0, 0, now);
        let seat = steps.split_seat::<Hands>(keeper);
        Token { seat, name }
    }
}
