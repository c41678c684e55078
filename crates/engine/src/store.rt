// What levels guard while a program runs: the cells, and the holding with its counts.
ghost use Rattle.std.specs.Prelude.{◌≡◌, slice_set};
ghost use Rattle.semantics.specs.State.{word_in, settled, settling, putting, cell, stored, level_at};
ghost use Rattle.tables.specs.View.{view};
ghost use Rattle.engine.specs.View.{value_of};

use crate::cells::{CELLS, Cells};
use holding::interface::Holding;
use holding::shares::Shares;
use semantics::values::Value;
use std::marker::Model;
use tables::tables::Tables;

// Clauses see the words that the cells stand for, and the counts.
#[derive(Drop)]
pub struct Store<H: Holding + Drop> {
    pub holding: H,
    pub cells: Cells<Shares>,
}

impl<H: Holding + Drop> Model for Store<H> {
    ghost use Rattle.std.specs.Prelude.{map};
    ghost use Rattle.semantics.specs.State.{Kept};
    ghost use Rattle.engine.specs.View.{value_of};

    ghost Value = { Kept };

    ghost view = { λ s. record { cells = map (value_of H.stands) s.cells.cells; counts = H.counts s.holding } };
}

impl<H: Holding + Drop> Store<H> {
    // What the cell of a variable holds.
    pub(crate) fn read(&self, variable: usize) -> Value<Shares>
        ensures { value_of H.stands result ≡ cell variable self.now }
    {
        self.cells.read(variable).unwrap_or(Value::Plain(0))
    }

    fn write(&mut self, variable: usize, figure: Value<Shares>)
        ensures { self.new ≡ record { cells = slice_set self.old.cells variable (value_of H.stands figure); counts = self.old.counts } }
    {
        if variable < CELLS {
            *self.cells.cell(variable) = figure;
        }
    }

    // A figure as three words: a plain one is put in.
    pub(crate) fn hold(&mut self, figure: Value<Shares>) -> Shares
        ensures stands { H.stands result ≡ word_in (value_of H.stands figure) }
        ensures kept { self.new ≡ putting (value_of H.stands figure) self.old }
    {
        match figure {
            Value::Plain(word) => self.holding.put_in(word),
            Value::Held(shares) => shares,
        }
    }

    // A figure where a level is due: a plain one is put in, unless the level is public.
    pub(crate) fn settle(&mut self, level: u32, figure: Value<Shares>) -> Value<Shares>
        ensures value { value_of H.stands result ≡ settled level (value_of H.stands figure) }
        ensures kept { self.new ≡ settling level (value_of H.stands figure) self.old }
    {
        match level {
            0 => figure,
            _ => Value::Held(self.hold(figure)),
        }
    }

    // The cell of a variable of a level becomes a figure, and that is answered as the cell has it.
    pub(crate) fn set(
        &mut self,
        variable: usize,
        level: u32,
        figure: Value<Shares>,
    ) -> Value<Shares>
        ensures value { value_of H.stands result ≡ settled level (value_of H.stands figure) }
        ensures kept { self.new ≡ stored variable level (value_of H.stands figure) self.old }
    {
        let figure = self.settle(level, figure);
        self.write(variable, figure);
        figure
    }

    // The cell of a variable becomes a figure, and that is answered as the cell has it.
    pub(crate) fn assign(
        &mut self,
        tables: &Tables,
        variable: usize,
        figure: Value<Shares>,
    ) -> Value<Shares>
        ensures value { value_of H.stands result ≡ settled (level_at (view tables.now) variable) (value_of H.stands figure) }
        ensures kept { self.new ≡ stored variable (level_at (view tables.now) variable) (value_of H.stands figure) self.old }
    {
        self.set(variable, tables.variable_level(variable), figure)
    }
}
