//! A first load.
ghost use Rattle.std.specs.Prelude.{◌≡◌, IfOk, IfSome};
ghost use Rattle.flat_model.specs.Flat.{word_at};

use machine_core::{Answer, Event, Machine, MakeFault, Shape, Word};
use std::alloc::Global;

const SHAPE: Shape = Shape {
    words: 64,
    sets: 4,
    banks: 4,
    bank_queue: 8,
    write_queue: 8,
    replies: 8,
};

/// What a load of the word at `at` gets from a new machine of 64 words: the image's word. `None`: no such word.
pub fn first_load(alloc: Global, image: &[Word], at: u32) -> Result<Option<Word>, MakeFault>
    ensures { IfOk result (λ got. IfSome got (λ word. word ≡ word_at image.now at)) }
{
    let mut machine = Machine::<2, 4, 4, 4>::new(alloc, SHAPE, image)?;
    if machine.apply(Event::Load { tag: 1, at }) != Answer::Accepted {
        return Ok(None);
    }
    'pumps: while let Some((_, answer)) = machine.pump() {
        if let Answer::Value { word, .. } = answer {
            return Ok(Some(word));
        }
    }
    Ok(None)
}
