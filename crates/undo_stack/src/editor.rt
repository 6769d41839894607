//! A diagram with its past and its future.

ghost use Rattle.std.specs.Prelude.{◌≡◌, ◌↔◌, ◌+◌, ◌≤◌, ℤ, [], length, Some, None, IfOk, OnOk, OnErr, IsErr};
ghost use Rattle.std.specs.Result.{result_err};
ghost use Rattle.kh_types.specs.StateSum.{state_sum};
ghost use Rattle.diagram_moves.specs.Moved.{moved};
ghost use Rattle.undo_stack.specs.Histories.{after_change, opening_history, redone, undone};
ghost use Rattle.undo_stack.specs.declared.limits.TheConstants.{UNDO_DEPTH};

use crate::limits::UNDO_DEPTH;
use circular_buffer::HeapCircularBuffer;
use diagram_moves::{Move, MoveFault, apply_move};
use kh_types::{Diagram, NoMemory};
use std::alloc::Global;
use std::marker::Model;

/// Nothing was changed that could be undone.
#[derive(Clone, Copy, Debug, PartialEq, Eq)]
pub struct NothingToUndo;

/// Nothing was undone that could be done again.
#[derive(Clone, Copy, Debug, PartialEq, Eq)]
pub struct NothingToRedo;

/// A diagram with its past and its future. Contracts see a `History` of the undo machine.
#[derive(Drop)]
pub struct Editor {
    past: HeapCircularBuffer<Diagram>,
    diagram: Diagram,
    future: HeapCircularBuffer<Diagram>,
}

impl Model for Editor {
    ghost use Rattle.std.specs.Prelude.{◌≡◌, ◌+◌, ◌≤◌, length};
    ghost use Rattle.undo_stack.specs.Histories.{History, history_of};
    ghost use Rattle.undo_stack.specs.declared.limits.TheConstants.{UNDO_DEPTH};

    ghost Value = { History };

    ghost view = { λ e. history_of e.past.items e.diagram e.future.items };

    ghost invariant = { λ e. (e.past.capacity ≡ UNDO_DEPTH) × (e.future.capacity ≡ UNDO_DEPTH)
        × (length e.past.items + length e.future.items ≤ UNDO_DEPTH) };
}

impl Editor {
    /// An editor with a diagram, and with no past and no future. It takes the memory for both.
    pub fn new(alloc: Global, diagram: Diagram) -> Result<Editor, NoMemory>
        ensures { IfOk result (λ editor. editor ≡ opening_history diagram) }
    {
        Ok(Editor {
            past: HeapCircularBuffer::with_capacity(alloc, UNDO_DEPTH)?,
            diagram,
            future: HeapCircularBuffer::with_capacity(alloc, UNDO_DEPTH)?,
        })
    }

    /// The diagram.
    pub fn diagram(&self) -> &Diagram
        ensures diagram { result.now ≡ self.now.diagram }
        ensures few { length self.now.past + length self.now.future ≤ UNDO_DEPTH }
    {
        &self.diagram
    }

    /// Makes a move. The diagram before becomes the last of the past, of which the last 256 are
    /// kept, and the future is empty; on a fault nothing changes. The state sum of the diagram
    /// stays. It takes no memory.
    pub fn do_move(&mut self, change: Move) -> Result<(), MoveFault>
        ensures fault { result_err result ≡ result_err (moved self.old.diagram change) }
        ensures history { self.new ≡ after_change (moved self.old.diagram change) self.old }
        ensures sum { (exponent : ℤ)
            → state_sum self.new.diagram exponent ≡ state_sum self.old.diagram exponent }
    {
        let changed = apply_move(&self.diagram, change)?;
        self.past.push_back(self.diagram);
        self.diagram = changed;
        self.future.clear();
        Ok(())
    }

    /// Takes back the last change that was done: the diagram is the last of the past, and the one
    /// before is the first of the future.
    pub fn undo(&mut self) -> Result<(), NothingToUndo>
        ensures refused { IsErr result ↔ (self.old.past ≡ []) }
        ensures done { OnOk result (undone self.old ≡ Some self.new) }
        ensures kept { OnErr result ((self.new ≡ self.old) × (undone self.old ≡ None)) }
    {
        match self.past.pop_back() {
            Some(last) => {
                self.future.push_front(self.diagram);
                self.diagram = last;
                Ok(())
            }
            None => Err(NothingToUndo),
        }
    }

    /// Does again what was undone last: the diagram is the first of the future, and the one before
    /// is the last of the past.
    pub fn redo(&mut self) -> Result<(), NothingToRedo>
        ensures refused { IsErr result ↔ (self.old.future ≡ []) }
        ensures done { OnOk result (redone self.old ≡ Some self.new) }
        ensures kept { OnErr result ((self.new ≡ self.old) × (redone self.old ≡ None)) }
    {
        match self.future.pop_front() {
            Some(first) => {
                self.past.push_back(self.diagram);
                self.diagram = first;
                Ok(())
            }
            None => Err(NothingToRedo),
        }
    }
}
