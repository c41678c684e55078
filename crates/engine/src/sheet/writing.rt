// Reserving a sheet, spending a step, and writing a line.
ghost use Rattle.std.specs.Prelude.{◌≡◌, ◌+◌, ◌^◌, ◌<◌, not, [], is_ok, IfOk, if◌then◌else◌};
ghost use Rattle.semantics.specs.State.{tick as ticked, full, written};

use super::{Draft, LINES, LinesFull, Sheet};
use semantics::lines::Line;
use std::alloc::{AllocError, Global};

impl Sheet {
    pub(crate) fn reserve(heap: Global) -> Result<Sheet, AllocError>
        ensures { IfOk result (λ s. s ≡ record { lines = []; spent = 0 }) }
    {
        let lines = Vec::with_capacity(heap, LINES)?;
        Ok(Sheet { lines, spent: 0 })
    }

    // No line stands then, and no step is spent.
    pub(crate) fn clear(&mut self)
        ensures { self.new ≡ record { lines = []; spent = 0 } }
    {
        self.lines.clear();
        self.spent = 0;
    }

    pub(crate) fn lines(&self) -> &[Line]
        ensures { result.now ≡ self.now.lines }
    {
        &self.lines
    }

    pub(crate) fn spent(&self) -> u32
        ensures { result ≡ self.now.spent }
    {
        self.spent
    }

    pub(crate) fn tick(&mut self)
        requires { self.old.spent + 1 < 2 ^ 32 }
        ensures { self.new ≡ ticked self.old }
    {
        self.spent += 1;
    }

    // Writes a line, unless 256 stand.
    pub(crate) fn write(&mut self, draft: Draft) -> Result<(), LinesFull>
        ensures wrote { is_ok result ≡ not (full self.old) }
        ensures after { self.new ≡ (if full self.old then self.old else written draft.kind draft.node draft.data_type draft.word self.old) }
    {
        if self.lines.len() >= LINES {
            return Err(LinesFull);
        }
        self.lines.push_reserved(Line {
            kind: draft.kind,
            node: draft.node,
            steps: self.spent,
            data_type: draft.data_type,
            word: draft.word,
        });
        Ok(())
    }
}
