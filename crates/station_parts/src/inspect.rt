//! The audit.
ghost use Rattle.std.specs.Prelude.{◌≡◌, List, ◌++◌, ◌≤◌, ◌<◌, length, map, position, IfSome, ◌^◌};
ghost use Rattle.std.specs.Option.{ForSome};
ghost use Rattle.std.specs.Global.{Vec};
ghost use Rattle.station_parts.specs.declared.make.TheConstants.{MAX_PORTS};
ghost use Rattle.flat_model.specs.declared.limits.TheConstants.{MAX_BANKS};
ghost use Rattle.rtrb.specs.Ring.{received, sent, known_items, known_free};
ghost use Rattle.station_journal.specs.declared.asks.Ask.{Ask};
ghost use Rattle.station_journal.specs.declared.asks.Told.{Told};
ghost use Rattle.station_parts.specs.declared.parts.Audit.TheVariants.{Clean};
ghost use Rattle.station_parts.specs.Promises.{IsAudited, IsFoundClean};
ghost use Rattle.station_parts.specs.Runs.{HaveConversed, AreAnswered};
ghost use Rattle.station_parts.specs.Rings.{pushes_to, pops_from};
ghost use Rattle.station_parts.specs.Ids.{PortId, BankId, port_id, bank_id, line_ring};
ghost use Rattle.station_parts.specs.Station.{AreOneStation, AreSameParts};
ghost use Rattle.station_parts.specs.Rows.{come_to, sent_over, brought_by};
ghost use Rattle.station_parts.specs.Words.{journal_of, told_in_all, commanded, offered, offered_before, taken, known_tellings};
ghost use Rattle.station_parts.specs.Words.{known_places, answer_places, received_by, sent_by, words_of, known_commands};
ghost use Rattle.station_parts.specs.Audited.{IsSeen, AreAtMost, line_places, LeavesCache, LeavesPorts, LeavesBanks, holds_item};
ghost use Rattle.station_parts.specs.Audited.{first_ring, first_left, audit_of};

use crate::bank::BankSide;
use crate::parts::{Audit, CacheSide, Ring};
use crate::port::Port;
use crate::row::Line;
use memory_banks::BankAnswer;
use rtrb::{Consumer, Producer};
use station_journal::{Ask, Told};

/// Looks at every ring of a whole station, its parts in the order of their numbers, and tells the first of
/// these: `Faulted`, which never comes where all banks are at hand; `Left`, with the first ring that holds an
/// item; `Owed`, with how many accepted loads wait for their values or have them ready; `Clean`. Its time goes
/// by the rings, not by the journal.
///
/// The journal is then a run of flat memory from zeros, and each port's part of it what the port offered and
/// took. After `Clean` it has all that was offered and told, and nothing is due. If the cache side is settled
/// too, the banks hold flat memory.
pub fn audit(cache: &mut CacheSide, ports: &mut [Port], banks: &mut [BankSide]) -> Audit
    requires { AreOneStation cache.old ports.old banks.old }

    ensures same { AreSameParts cache.old cache.new ports.old ports.new banks.old banks.new }
    ensures cache { LeavesCache cache.old cache.new }
    ensures ports { LeavesPorts ports.old ports.new }
    ensures banks { LeavesBanks banks.old banks.new }

    ensures audited { IsAudited cache.new ports.new banks.new result }
    ensures clean { result ≡ Clean → IsFoundClean cache.new ports.new banks.new }

    ensures answered { (scripts : List (Vec Ask)) (lists : List (Vec Told))
        → HaveConversed scripts ports.old lists
        → AreAnswered result (journal_of cache.new) lists }
{
    look_everywhere(cache, ports, banks);
    found(cache, ports, banks)
}

fn look_everywhere(cache: &mut CacheSide, ports: &mut [Port], banks: &mut [BankSide])
    requires { AreOneStation cache.old ports.old banks.old }
    ensures same { AreSameParts cache.old cache.new ports.old ports.new banks.old banks.new }
    ensures cache { LeavesCache cache.old cache.new }
    ensures ports { LeavesPorts ports.old ports.new }
    ensures banks { LeavesBanks banks.old banks.new }
    ensures seen { IsSeen cache.new ports.new banks.new }
{
    look_asks(ports, &mut cache.asks);
    look_tellings(ports, &mut cache.tellings);
    look_commands(banks, &mut cache.row.lines);
    look_answers(banks, &mut cache.answers);
}

fn look_asks(ports: &mut [Port], asks: &mut Vec<Consumer<Ask>>)
    requires { map (λ (p : PortId). p.asks) (map port_id ports.old) ≡ map pops_from asks.old.items }
    ensures same { map port_id ports.new ≡ map port_id ports.old }
    ensures offered { map offered ports.new ≡ map offered ports.old }
    ensures before { map offered_before ports.new ≡ map offered_before ports.old }
    ensures taken { map taken ports.new ≡ map taken ports.old }
    ensures places { AreAtMost (map known_places ports.old) (map known_places ports.new) }
    ensures rings { map pops_from asks.new.items ≡ map pops_from asks.old.items }
    ensures received { map received asks.new.items ≡ map received asks.old.items }
    ensures seen { map come_to asks.new.items ≡ map offered ports.new }
{
    for p in 0..ports.len() {
        look_ask(&mut ports[p], &mut asks[p]);
    }
}

fn look_ask(port: &mut Port, asks: &mut Consumer<Ask>)
    requires { (port_id port.old).asks ≡ pops_from asks.old }
    ensures same { port_id port.new ≡ port_id port.old }
    ensures offered { offered port.new ≡ offered port.old }
    ensures before { offered_before port.new ≡ offered_before port.old }
    ensures taken { taken port.new ≡ taken port.old }
    ensures places { known_places port.old ≤ known_places port.new }
    ensures ring { pops_from asks.new ≡ pops_from asks.old }
    ensures received { received asks.new ≡ received asks.old }
    ensures seen { received asks.new ++ known_items asks.new ≡ offered port.new }
{
    asks.slots_beside(&mut port.asks);
}

fn look_tellings(ports: &mut [Port], tellings: &mut Vec<Producer<Told>>)
    requires { map (λ (p : PortId). p.told) (map port_id ports.old)
        ≡ map pushes_to tellings.old.items }
    ensures same { map port_id ports.new ≡ map port_id ports.old }
    ensures offered { map offered ports.new ≡ map offered ports.old }
    ensures before { map offered_before ports.new ≡ map offered_before ports.old }
    ensures taken { map taken ports.new ≡ map taken ports.old }
    ensures places { AreAtMost (map known_places ports.old) (map known_places ports.new) }
    ensures rings { map pushes_to tellings.new.items ≡ map pushes_to tellings.old.items }
    ensures room { AreAtMost (map known_free tellings.old.items) (map known_free tellings.new.items) }
    ensures sent { map sent tellings.new.items ≡ map sent tellings.old.items }
    ensures seen { map told_in_all ports.new
        ≡ map sent tellings.new.items }
{
    for p in 0..ports.len() {
        look_telling(&mut ports[p], &mut tellings[p]);
    }
}

fn look_telling(port: &mut Port, tellings: &mut Producer<Told>)
    requires { (port_id port.old).told ≡ pushes_to tellings.old }
    ensures same { port_id port.new ≡ port_id port.old }
    ensures offered { offered port.new ≡ offered port.old }
    ensures before { offered_before port.new ≡ offered_before port.old }
    ensures taken { taken port.new ≡ taken port.old }
    ensures places { known_places port.old ≤ known_places port.new }
    ensures ring { pushes_to tellings.new ≡ pushes_to tellings.old }
    ensures room { known_free tellings.old ≤ known_free tellings.new }
    ensures sent { sent tellings.new ≡ sent tellings.old }
    ensures seen { taken port.new ++ known_tellings port.new ≡ sent tellings.new }
{
    port.tellings.slots_beside(tellings);
}

fn look_commands(banks: &mut [BankSide], lines: &mut Vec<Line>)
    requires { map (λ (b : BankId). b.commands) (map bank_id banks.old)
        ≡ map line_ring lines.old.items }
    ensures same { map bank_id banks.new ≡ map bank_id banks.old }
    ensures banks { LeavesBanks banks.old banks.new }
    ensures rings { map line_ring lines.new.items
        ≡ map line_ring lines.old.items }
    ensures sent { map sent_over lines.new.items
        ≡ map sent_over lines.old.items }
    ensures taken { map brought_by lines.new.items ≡ map brought_by lines.old.items }
    ensures room { AreAtMost (map line_places lines.old.items) (map line_places lines.new.items) }
    ensures seen { map commanded banks.new
        ≡ map sent_over lines.new.items }
{
    for b in 0..banks.len() {
        look_command(&mut banks[b], &mut lines[b]);
    }
}

fn look_command(bank: &mut BankSide, line: &mut Line)
    requires { (bank_id bank.old).commands ≡ pushes_to line.old.ring }
    ensures same { bank_id bank.new ≡ bank_id bank.old }
    ensures received { received_by bank.new ≡ received_by bank.old }
    ensures sent_back { sent_by bank.new ≡ sent_by bank.old }
    ensures words { words_of bank.new ≡ words_of bank.old }
    ensures places { answer_places bank.old ≤ answer_places bank.new }
    ensures room { line_places line.old ≤ line_places line.new }
    ensures ring { pushes_to line.new.ring ≡ pushes_to line.old.ring }
    ensures sent { sent line.new.ring ≡ sent line.old.ring }
    ensures taken { line.new.taken ≡ line.old.taken }
    ensures seen { received_by bank.new ++ known_commands bank.new ≡ sent line.new.ring }
{
    line.look_beside(&mut bank.commands);
}

fn look_answers(banks: &mut [BankSide], answers: &mut Vec<Consumer<BankAnswer>>)
    requires { map (λ (b : BankId). b.answers) (map bank_id banks.old)
        ≡ map pops_from answers.old.items }
    ensures same { map bank_id banks.new ≡ map bank_id banks.old }
    ensures banks { LeavesBanks banks.old banks.new }
    ensures commands { map commanded banks.new
        ≡ map commanded banks.old }
    ensures rings { map pops_from answers.new.items ≡ map pops_from answers.old.items }
    ensures received { map received answers.new.items ≡ map received answers.old.items }
    ensures seen { map come_to answers.new.items
        ≡ map sent_by banks.new }
{
    for b in 0..banks.len() {
        look_answer(&mut banks[b], &mut answers[b]);
    }
}

fn look_answer(bank: &mut BankSide, answers: &mut Consumer<BankAnswer>)
    requires { (bank_id bank.old).answers ≡ pops_from answers.old }
    ensures same { bank_id bank.new ≡ bank_id bank.old }
    ensures received_by { received_by bank.new ≡ received_by bank.old }
    ensures sent { sent_by bank.new ≡ sent_by bank.old }
    ensures words { words_of bank.new ≡ words_of bank.old }
    ensures commands { commanded bank.new ≡ commanded bank.old }
    ensures places { answer_places bank.old ≤ answer_places bank.new }
    ensures ring { pops_from answers.new ≡ pops_from answers.old }
    ensures received { received answers.new ≡ received answers.old }
    ensures seen { received answers.new ++ known_items answers.new ≡ sent_by bank.new }
{
    answers.slots_beside(&mut bank.answers);
}

fn found(cache: &CacheSide, ports: &[Port], banks: &[BankSide]) -> Audit
    requires ports { length ports.now ≤ MAX_PORTS }
    requires banks { length banks.now ≤ MAX_BANKS }
    ensures { result ≡ audit_of cache.now ports.now banks.now }
{
    if cache.fault.is_some() {
        return Audit::Faulted;
    }
    if let Some(ring) = first_left(cache, ports, banks) {
        return Audit::Left { ring };
    }
    match cache.unit.owed() {
        0 => Audit::Clean,
        count => Audit::Owed { count },
    }
}

fn first_left(cache: &CacheSide, ports: &[Port], banks: &[BankSide]) -> Option<Ring>
    requires ports { length ports.now ≤ MAX_PORTS }
    requires banks { length banks.now ≤ MAX_BANKS }
    ensures { result ≡ first_left cache.now ports.now banks.now }
{
    let asks = first_held(&cache.asks);
    let told = first_told(ports);
    let commands = first_commands(banks);
    let answers = first_held(&cache.answers);
    first_ring(asks, told, commands, answers)
}

fn first_ring(
    asks: Option<usize>,
    told: Option<usize>,
    commands: Option<usize>,
    answers: Option<usize>,
) -> Option<Ring>
    requires asks { ForSome asks (λ p. p < 2 ^ 32) }
    requires told { ForSome told (λ p. p < 2 ^ 32) }
    requires commands { ForSome commands (λ p. p < 2 ^ 32) }
    requires answers { ForSome answers (λ p. p < 2 ^ 32) }
    ensures { result ≡ first_ring asks told commands answers }
{
    match (asks, told, commands, answers) {
        (Some(port), _, _, _) => Some(Ring::Asks(port as u32)),
        (None, Some(port), _, _) => Some(Ring::Told(port as u32)),
        (None, None, Some(bank), _) => Some(Ring::Commands(bank as u32)),
        (None, None, None, Some(bank)) => Some(Ring::Answers(bank as u32)),
        (None, None, None, None) => None,
    }
}

fn first_held<T>(ends: &[Consumer<T>]) -> Option<usize>
    ensures place { result ≡ position (λ c. holds_item (known_items c)) ends.now }
    ensures bound { IfSome result (λ p. p < length ends.now) }
{
    ends.iter().position(|end| end.cached_slots() > 0)
}

fn first_told(ports: &[Port]) -> Option<usize>
    ensures place { result ≡ position (λ p. holds_item (known_tellings p)) ports.now }
    ensures bound { IfSome result (λ p. p < length ports.now) }
{
    ports
        .iter()
        .position(|port| port.tellings.cached_slots() > 0)
}

fn first_commands(banks: &[BankSide]) -> Option<usize>
    ensures place { result ≡ position (λ b. holds_item (known_commands b)) banks.now }
    ensures bound { IfSome result (λ p. p < length banks.now) }
{
    banks
        .iter()
        .position(|bank| bank.commands.cached_slots() > 0)
}
