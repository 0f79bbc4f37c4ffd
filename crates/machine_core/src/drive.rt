//! Which event the driver chooses.
ghost use Rattle.std.specs.Prelude.{◌≡◌, length, Option};
ghost use Rattle.std.specs.List.{find, list_all, range_with_len};
ghost use Rattle.memory_banks.specs.Banks.{bank_at};
ghost use Rattle.cache_law.specs.Views.{is_empty};
ghost use Rattle.machine_core.specs.Whole.{machine_of};
ghost use Rattle.machine_core.specs.Pump.{has_items, pumped};

use cache_unit::ShapedUnit;
use flat_model::Event;
use memory_banks::Banks;

pub(crate) fn next_event(unit: &ShapedUnit, banks: &Banks) -> Option<Event>
    ensures { result ≡ pumped unit.now.sizes (machine_of unit.now banks.now) }
{
    if unit.replies_len() > 0 {
        return Some(Event::Take { place: 0 });
    }
    if unit.stack_len() > 0 {
        return Some(Event::Process { place: 0 });
    }
    let number = unit.sizes().banks;
    if let Some(bank) = first_with_answer(banks, number) {
        return Some(Event::Arrive { bank, place: 0 });
    }
    if let Some(bank) = first_with_command(banks, number) {
        return Some(Event::Serve { bank });
    }
    if unit.queue_len() > 0 {
        return Some(Event::Drain);
    }
    None
}

fn first_with_answer(banks: &Banks, number: u32) -> Option<u32>
    ensures { result ≡ find (λ b. has_items (bank_at banks.now.banks b).answers)
        (range_with_len 0 number) }
{
    (0..number).find(|bank| has_answer(banks, *bank))
}

fn first_with_command(banks: &Banks, number: u32) -> Option<u32>
    ensures { result ≡ find (λ b. has_items (bank_at banks.now.banks b).queue)
        (range_with_len 0 number) }
{
    (0..number).find(|bank| has_command(banks, *bank))
}

pub(crate) fn all_served(banks: &Banks, number: u32) -> bool
    requires { length banks.now.banks ≡ number }
    ensures { result ≡ list_all (λ b. is_empty b.queue) banks.now.banks }
{
    for bank in 0..number {
        if has_command(banks, bank) {
            return false;
        }
    }
    true
}

fn has_answer(banks: &Banks, bank: u32) -> bool
    ensures { result ≡ has_items (bank_at banks.now.banks bank).answers }
{
    banks.answers(bank) > 0
}

fn has_command(banks: &Banks, bank: u32) -> bool
    ensures { result ≡ has_items (bank_at banks.now.banks bank).queue }
{
    banks.queued(bank) > 0
}
