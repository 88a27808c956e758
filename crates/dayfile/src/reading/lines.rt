// Lines, one after another.
ghost use Rattle.std.specs.Prelude.{◌≡◌, ◌+◌, ◌^◌, ◌<◌, map, length, IfOk, OnOk};
ghost use Rattle.daytables.specs.Rows.{entry_of};
ghost use Rattle.daytables.specs.Tables.{said_of, posts};
ghost use Rattle.dayfile.specs.Reading.{unread, noted, refused, read_from, go_on};
ghost use Rattle.dayfile.specs.Views.{read_of};

use super::Reading;
use crate::faults::{DayFile, Fault, Place};
use daytables::due::{Due, Row};
use model::labels::OPENING;
use model::refusals::Refusal;
use runs::calls::Call;
use std::alloc::{AllocError, Global};

impl<'a> Reading<'a> {
    // Nothing is read: the label `opening` alone is known.
    pub(super) fn new(heap: Global, fault: Option<Fault>) -> Result<Reading<'a>, AllocError>
        ensures { IfOk result (λ x. read_of x ≡ unread fault) }
    {
        let mut labels: Vec<&'a [u8]> = Vec::new(heap);
        labels.push(OPENING)?;
        Ok(Reading {
            bunkers: Vec::new(heap),
            labels,
            calls: Vec::new(heap),
            places: Vec::new(heap),
            fault,
        })
    }

    // A line that posts a slip or a use.
    fn post(&mut self, at: Place, call: Call<'a>) -> Result<(), AllocError>
        ensures { OnOk result (read_of self.new ≡ noted at (posts (entry_of call.entry)) (read_of self.old)) }
    {
        self.calls.push(call)?;
        self.places.push(at)?;
        Ok(())
    }

    // One more line.
    fn note(&mut self, at: Place, row: Row<'a>) -> Result<(), AllocError>
        ensures { OnOk result (read_of self.new ≡ noted at (said_of row.entry) (read_of self.old)) }
    {
        match row {
            Row::Nothing => Ok(()),
            Row::Bunker(line) => {
                self.bunkers.push(line)?;
                Ok(())
            }
            Row::Label(word) => {
                self.labels.push(word)?;
                self.post(at, Call::Name(word))
            }
            Row::Post(call) => self.post(at, call),
        }
    }

    // Reading ends at that line.
    fn refuse(&mut self, at: Place, refusal: Refusal)
        ensures { read_of self.new ≡ refused at refusal (read_of self.old) }
    {
        self.fault = Some(at.fault(refusal));
    }

    // The lines of a file from line `first` on, where that is due; nothing more after a fault.
    #[tactic(auto, using(crate::proofs::LineSteps::lines_end, crate::proofs::LineSteps::lines_short))]
    pub(super) fn read_lines(
        &mut self,
        file: DayFile,
        first: usize,
        mut due: Due,
        lines: &[&'a [u8]],
    ) -> Result<(), AllocError>
        requires { first + length lines.now < 2 ^ 64 }
        ensures { OnOk result (read_of self.new ≡ go_on (read_of self.old) (read_from file due first (map (λ x. x.now) lines.now))) }
    {
        if self.fault.is_some() {
            return Ok(());
        }
        for (i, line) in lines.iter().enumerate() {
            let at = file.line(first + i);
            match due.read(self.labels.as_slice(), line) {
                Ok(step) => {
                    self.note(at, step.row)?;
                    due = step.next;
                }
                // no `?`: the fault is part of what has been read, and ends the reading without an error
                Err(why) => {
                    self.refuse(at, why.into());
                    return Ok(());
                }
            }
        }
        if !due.may_end() {
            self.refuse(file.line(first + lines.len()), Refusal::LineNotDue);
        }
        Ok(())
    }
}
