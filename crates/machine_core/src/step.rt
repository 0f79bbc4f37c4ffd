//! One event, on a unit and its banks.
ghost use Rattle.std.specs.Prelude.{◌≡◌, ℕ, ◌≤◌, [], length, slice_get, vec_capacity, take};
ghost use Rattle.memory_banks.specs.declared.bank.TheConstants.{MAX_ANSWERS};
ghost use Rattle.memory_banks.specs.Banks.{bank_at, room_in};
ghost use Rattle.memory_banks.specs.Memory.{with_banks};
ghost use Rattle.cache_law.specs.Steps as steps;
ghost use Rattle.machine_core.specs.Machine as machine;
ghost use Rattle.cache_law.specs.State.{UnitState};
ghost use Rattle.machine_core.specs.Whole.{machine_of, Makes};

use cache_unit::{Request, ShapedUnit};
use flat_model::{Answer, Event};
use memory_banks::Banks;

/// Makes one event. Each kind is a function that isn't inlined, and so pays for its own locals
/// alone.
#[inline(always)]
pub(crate) fn step(unit: &mut ShapedUnit, banks: &mut Banks, event: Event) -> Answer
    requires limit { banks.old.limit ≡ unit.old.sizes.bank_queue }
    requires few { (b : ℕ) → length (bank_at banks.old.banks b).answers ≤ MAX_ANSWERS }
    ensures { Makes (machine.apply unit.old.sizes (machine_of unit.old banks.old) event)
        unit.old banks.old result unit.new banks.new }
{
    match event {
        Event::Load { tag, at } => ask(unit, banks, Request::Load { tag, at }),
        Event::Store { at, word, lanes } => ask(unit, banks, Request::Store { at, word, lanes }),
        Event::Prefetch { at } => ask(unit, banks, Request::Prefetch { at }),
        Event::Evict { block } => unit.evict(block),
        Event::Drain => drain(unit, banks),
        Event::Serve { bank } => serve(banks, bank),
        Event::Arrive { bank, place } => bring(unit, banks, bank, place),
        Event::Process { place } => unit.process(place),
        Event::Take { place } => unit.take(place),
    }
}

/// Makes the events in order, and lists their answers.
pub(crate) fn walk(
    unit: &mut ShapedUnit,
    banks: &mut Banks,
    events: &[Event],
    answers: &mut Vec<Answer>,
)
    requires limit { banks.old.limit ≡ unit.old.sizes.bank_queue }
    requires few { (n b : ℕ)
        → length (bank_at (machine.walked unit.old.sizes (machine_of unit.old banks.old)
        (take n events.now)).banks b).answers ≤ MAX_ANSWERS }
    requires empty { answers.old.items ≡ [] }
    requires room { length events.now ≤ vec_capacity answers.old }
    ensures answers { answers.new.items
        ≡ machine.told unit.old.sizes (machine_of unit.old banks.old) events.now }
    ensures unit { unit.new
        ≡ record unit.old {
          cache =
              (machine.walked unit.old.sizes (machine_of unit.old banks.old) events.now).cache;
        } }
    ensures banks { banks.new
        ≡ with_banks banks.old
        (machine.walked unit.old.sizes (machine_of unit.old banks.old) events.now).banks }
{
    for event in events {
        let answer = step(unit, banks, *event);
        answers.push_reserved(answer);
    }
}

#[inline(always)]
fn ask(unit: &mut ShapedUnit, banks: &mut Banks, request: Request) -> Answer
    requires { banks.old.limit ≡ unit.old.sizes.bank_queue }
    ensures { Makes (machine.joined_with banks.old.banks
        (steps.request_step unit.old.sizes (room_in unit.old.sizes.bank_queue banks.old.banks)
        unit.old.cache request)) unit.old banks.old result unit.new banks.new }
{
    unit.request(request, banks)
}

#[inline(never)]
fn drain(unit: &mut ShapedUnit, banks: &mut Banks) -> Answer
    requires { banks.old.limit ≡ unit.old.sizes.bank_queue }
    ensures { Makes (machine.joined_with banks.old.banks
        (steps.drain_step unit.old.sizes (room_in unit.old.sizes.bank_queue banks.old.banks)
        unit.old.cache)) unit.old banks.old result unit.new banks.new }
{
    unit.drain(banks)
}

// The bank serves its first command.
#[inline(never)]
fn serve(banks: &mut Banks, bank: u32) -> Answer
    requires { length (bank_at banks.old.banks bank).answers ≤ MAX_ANSWERS }
    ensures { (unit : UnitState) → Makes (machine.serve_from (machine_of unit banks.old) bank
        (bank_at banks.old.banks bank).queue) unit banks.old result unit banks.new }
{
    if banks.serve(bank) {
        Answer::Moved
    } else {
        Answer::Nothing
    }
}

// The answer goes to the unit, and stays if the unit refuses it.
#[inline(never)]
fn bring(unit: &mut ShapedUnit, banks: &mut Banks, bank: u32, place: u32) -> Answer
    ensures { Makes (machine.arrive_from unit.old.sizes (machine_of unit.old banks.old) bank place
        (slice_get (bank_at banks.old.banks bank).answers place))
        unit.old banks.old result unit.new banks.new }
{
    let Some(answer) = banks.answer_at(bank, place) else {
        return Answer::Nothing;
    };
    let told = unit.arrive(answer.slot, answer.i, answer.word);
    if let Answer::Moved = told {
        banks.take_answer(bank, place);
    }
    told
}
