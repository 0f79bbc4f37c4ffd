//! A run in one of three forms.

ghost use Rattle.std.specs.Prelude.{OnOk, IfOk};
ghost use Rattle.std.specs.String.{string_bytes};
ghost use Rattle.run_pictures.specs.Drawn.{Opens, Draws, IsWritten};

use crate::page::Page;
use crate::screens::Screens;
use crate::step::Step;
use crate::waveform::Waveform;
use flat_model::Image;
use machine_core::ShapedMachine;
use std::alloc::{AllocError, Global};

/// The form of a drawing.
#[derive(Clone, Copy, PartialEq, Eq, Debug)]
pub enum Form {
    /// An HTML page that stands alone and steps through the run.
    Page,
    /// Lines of at most 80 columns, with an empty line between steps. `*` marks what the step
    /// changed, and `-` what is gone. A step has the lines that it changed, with all of their
    /// registers and frames. The first, the last and each hundredth step have all lines. Empty
    /// places aren't shown, and of memory only changed words.
    Screens,
    /// A value change dump (VCD), a unit of time a step: event and answer, and whether another was
    /// recorded. Also registers in use, obsolete ones and their blocks. And how much stands in the
    /// input stack, the write queue, the banks and the ready replies.
    Waveform,
}

#[derive(Drop)]
pub(crate) enum Drawing {
    Page(Page),
    Screens(Screens),
    Waveform(Waveform),
}

impl Drawing {
    pub(crate) fn new(
        alloc: Global,
        machine: &ShapedMachine,
        image: &Image,
        form: Form,
    ) -> Result<Drawing, AllocError>
        ensures { IfOk result (λ drawing. Opens form image.now machine.now drawing) }
    {
        match form {
            Form::Page => Ok(Drawing::Page(Page::new(alloc, machine, image)?)),
            Form::Screens => Ok(Drawing::Screens(Screens::new(alloc, machine, image)?)),
            Form::Waveform => Ok(Drawing::Waveform(Waveform::new(alloc, machine)?)),
        }
    }

    // Screens have the whole machine there, or what changed.
    pub(crate) fn draw(
        &mut self,
        alloc: Global,
        machine: &ShapedMachine,
        step: &Step,
        is_whole: bool,
    ) -> Result<(), AllocError>
        ensures { OnOk result (Draws is_whole machine.now step.now self.old self.new) }
    {
        match self {
            Drawing::Page(page) => page.draw(alloc, machine, step),
            Drawing::Screens(screens) => screens.draw(alloc, machine, step, is_whole),
            Drawing::Waveform(waveform) => waveform.draw(alloc, machine, step),
        }
    }

    pub(crate) fn finish(self) -> Result<String, AllocError>
        ensures { IfOk result (λ text. IsWritten self (string_bytes text)) }
    {
        match self {
            Drawing::Page(page) => page.finish(),
            Drawing::Screens(screens) => Ok(screens.finish()),
            Drawing::Waveform(waveform) => Ok(waveform.finish()),
        }
    }
}
