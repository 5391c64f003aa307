//! A farm: workers on threads of their own, and the ledger of what they and the caller's own thread checked.

ghost use Rattle.std.specs.{Prelude.{◌≡◌, ◌<◌, ◌≤◌, [], get_or, map, length, vec_len, IfOk, IfErr, All, AllPairs, Ok}, List.{AllZip}};
ghost use Rattle.pmf_board.specs.Calls.{PassesOverAll};
ghost use Rattle.pmf_verdict.specs.Checked.{checked_by};
ghost use Rattle.pmf_ledger.specs.{Gathered.{IsLedgerOf}, Repeats.{HaveOwnNames}};
ghost use Rattle.pmf_farm.specs.{Rolls.{IsRepeatOf, RollRises, Stays, checks, sections_of}, Running.{IsRefused, IsTaken}, Working.{HasWorked, IsLost, TakesInTurn, most_left}};

use crate::fault::FarmFault;
use crate::gate::Gate;
use crate::outbox::ChannelOutbox;
use crate::queue::{Queue, QueueGate};
use crate::roll::{call, keep};
use crate::slot::Slot;
use crate::working::{Ended, work};
use crossbeam_channel::{Receiver, Sender, unbounded};
use pmf_board::{Board, MOST_SECTIONS, MOST_WORKERS, Pass};
use pmf_event::{Profile, Section};
use pmf_ledger::Ledger;
use pmf_verdict::Verdict;
use std::alloc::{AllocError, Global};
use std::sync::{Arc, Wait};
use std::thread;
use std::thread::Threads;

// What a worker has of its own: its number, a pass, and where its verdicts go.
#[derive(Drop)]
struct Hand {
    number: u32,
    pass: Pass,
    channel: Sender<Verdict, Global>,
}

// What each worker has of its own. Its pass is split off the first one.
fn hands_of(
    alloc: Global,
    board: &Board,
    first: &mut Pass,
    workers: u32,
    channel: &Sender<Verdict, Global>,
) -> Result<Vec<Hand>, AllocError>
    requires own { first.old.board ≡ board.now }
    ensures own { IfOk result (λ hands. All (λ h. h.pass.board ≡ board.now) hands.items) }
    ensures numbers { IfOk result (λ hands. AllPairs (λ a b. a.number < b.number) hands.items) }
    ensures few { IfOk result (λ hands. All (λ h. h.number < workers) hands.items) }
{
    let mut hands = Vec::with_capacity(alloc, workers as usize)?;
    for number in 0..workers {
        let channel = channel.clone()?;
        // The first pass has a share for each of 64 workers.
        if let Ok(pass) = board.split(first) {
            hands.push(Hand {
                number,
                pass,
                channel,
            })?;
        }
    }
    Ok(hands)
}

// What the thread of a worker does. However it ended, the caller's own thread checks what is missing.
fn work_on_thread<'a, R: Wait, G: Gate>(
    rt: &'a R,
    alloc: Global,
    board: &Board,
    hand: Hand,
    queue: &Queue,
    gate: &G,
) -> (Pass, ChannelOutbox<'a, R>, Result<Ended, AllocError>)
    requires own { hand.pass.board ≡ board.now }
    requires all { vec_len queue.now.sections ≡ board.now.words }
    ensures worked { HasWorked (map (λ s. s.value) queue.now.sections.items) queue.now.profile
        hand.pass.view result.0.view [] (map (λ s. checked_by s.profile s.section.value) result.1.sent.items)
        (most_left result.2) }
    ensures turns { TakesInTurn board.now.words hand.number hand.pass.view result.0.view }
    ensures lost { (result.2 ≡ Ok Ended.Lost) → IsLost (λ worker section.
        G.answers gate.now worker (get_or queue.now.places.items section section)) hand.number result.0.view }
    ensures all { (result.2 ≡ Ok Ended.All) → PassesOverAll 8 board.now.words result.0.view }
{
    let Hand {
        number,
        mut pass,
        channel,
    } = hand;
    let mut outbox = ChannelOutbox::new(rt, alloc, channel);
    let gate = QueueGate { queue, gate };
    let sections = queue.sections.as_slice();
    let ended = work(
        alloc,
        board,
        &mut pass,
        sections,
        number,
        queue.profile,
        &mut outbox,
        &gate,
    );
    (pass, outbox, ended)
}

// The roll with the verdicts that arrive until no sender is left.
#[tactic(auto, using(std::proofs::lemmas::Grind::common_steps, crate::proofs::lemmas::RollLemmas::stays_itself))]
fn collect<R: Wait>(rt: &R, channel: &Receiver<Verdict, Global>, mut roll: Vec<Slot>) -> Vec<Slot>
    requires { RollRises roll.items }
    ensures { AllZip Stays roll.items result.items }
{
    for verdict in channel.iter(rt) {
        keep(roll.as_mut_slice(), verdict);
    }
    roll
}

// The roll with the verdicts of workers, each on a thread of its own. A worker that can't be started is as one that was
// lost.
fn farm_out<R: Threads + Wait + Sync, G: Gate + Sync>(
    rt: &R,
    alloc: Global,
    board: &Board,
    hands: Vec<Hand>,
    queue: &Queue,
    gate: &G,
    channel: &Receiver<Verdict, Global>,
    roll: Vec<Slot>,
) -> Vec<Slot>
    requires own { All (λ h. h.pass.board ≡ board.now) hands.items }
    requires all { vec_len queue.now.sections ≡ board.now.words }
    requires rises { RollRises roll.items }
    ensures { AllZip Stays roll.items result.items }
{
    thread::scope(
        thread::scope_env(),
        rt,
        |scope| -> Vec<Slot>
            requires own { All (λ h. h.pass.board ≡ board.now) hands.items }
            requires all { vec_len queue.now.sections ≡ board.now.words }
            requires rises { RollRises roll.items }
            ensures { AllZip Stays roll.items result.items }
        {
            for hand in hands {
                drop(scope.spawn(
                    move ||
                        requires own { hand.pass.board ≡ board.now }
                        requires all { vec_len queue.now.sections ≡ board.now.words }
                    { drop(work_on_thread(rt, alloc, board, hand, queue, gate)) },
                ));
            }
            collect(rt, channel, roll)
        },
    )
}

// The ledger of the roll. What has no verdict yet is checked here.
fn gather<G: Gate>(
    alloc: Global,
    roll: Vec<Slot>,
    profile: Profile,
    gate: &G,
) -> Result<Ledger, AllocError>
    ensures { IfOk result (IsLedgerOf profile (sections_of (checks roll.items))) }
{
    let mut ledger = Ledger::new(alloc, profile);
    for slot in roll {
        let verdict = slot.settle(alloc, gate)?;
        // The names of a roll differ, so that nothing is refused for another cause.
        if let Err(_) = ledger.take(verdict) {
            return Err(AllocError);
        }
    }
    Ok(ledger)
}

// The roll with a verdict that was made before, if there is one.
#[tactic(auto, using(crate::proofs::lemmas::RollLemmas::stays_itself))]
fn keep_known(mut roll: Vec<Slot>, known: Option<Verdict>) -> Vec<Slot>
    requires { RollRises roll.items }
    ensures { AllZip Stays roll.items result.items }
{
    if let Some(verdict) = known {
        keep(roll.as_mut_slice(), verdict);
    }
    roll
}

// Whether each slot has its verdict, so that there is nothing for workers. Where it isn't so, what is missing is checked all the same.
fn are_filled(roll: &[Slot]) -> bool {
    for slot in roll {
        if !slot.is_filled() {
            return false;
        }
    }
    true
}

// The ledger of the sections, by workers whose number fits.
fn check_all<R: Threads + Wait + Sync, G: Gate + Sync>(
    rt: &R,
    alloc: Global,
    sections: &[Arc<Section>],
    known: Option<Verdict>,
    workers: u32,
    profile: Profile,
    gate: &G,
) -> Result<Ledger, FarmFault>
    requires few { length sections.now ≤ 65536 }
    ensures ledger { IfOk result (IsLedgerOf profile (map (λ s. s.value) sections.now)) }
    ensures own { IfOk result (λ ledger. HaveOwnNames (map (λ s. s.value) sections.now)) }
    ensures refused { IfErr result (IsRepeatOf (map (λ s. s.value) sections.now)) }
{
    if sections.is_empty() {
        return Ok(Ledger::new(alloc, profile));
    }
    let called = call(alloc, sections, profile)?;
    let queue = Queue::new(alloc, called.as_slice(), profile)?;
    let roll = keep_known(called, known);
    if are_filled(&roll) {
        let ledger = gather(alloc, roll, profile, gate)?;
        return Ok(ledger);
    }
    let count = sections.len() as u32;
    let Ok((board, mut first)) = Board::new(alloc, count) else {
        return Err(FarmFault::OutOfMemory);
    };
    let (sender, receiver) = unbounded(alloc)?;
    // More workers than sections would only wait.
    let hands = hands_of(alloc, &board, &mut first, workers.min(count), &sender)?;
    // From then on only workers can send.
    drop(sender);
    let roll = farm_out(rt, alloc, &board, hands, &queue, gate, &receiver, roll);
    let ledger = gather(alloc, roll, profile, gate)?;
    Ok(ledger)
}

/// Runs a farm: the sections are checked by the profile by so many workers, each on a thread of its own, and gathered in
/// a ledger by the caller's own thread, which then checks what no worker's verdict arrived of. So it is the ledger of all
/// sections handed in, whichever workers were lost, never started or refused memory, whatever arrived twice or didn't.
///
/// One verdict may be known already, as of a section that was checked while its log was read: it is kept if it is one of these sections by this
/// profile, and where it is that of the only section, no worker is started.
///
/// It waits until each worker has ended. No more workers are started than there are sections, and they take long sections
/// first. Takes memory for a list of the sections, the
/// board and the ledger, besides that of the workers; [`FarmFault::OutOfMemory`] tells that memory was refused to the
/// caller's own thread.
pub fn run<R: Threads + Wait + Sync, G: Gate + Sync>(
    rt: &R,
    alloc: Global,
    sections: &[Arc<Section>],
    known: Option<Verdict>,
    workers: u32,
    profile: Profile,
    gate: &G,
) -> Result<Ledger, FarmFault>

    // The ledger of all sections handed in, which have names of their own, by 1 to 64 workers.
    ensures ledger { IfOk result (IsLedgerOf profile (map (λ s. s.value) sections.now)) }
    ensures taken { IfOk result (λ ledger. IsTaken workers (map (λ s. s.value) sections.now)) }

    // Each refusal comes where it has to, and want of memory only where the numbers of workers and sections fit.
    ensures refused { IfErr result (IsRefused workers (map (λ s. s.value) sections.now)) }
{
    if workers == 0 {
        return Err(FarmFault::NoWorkers);
    }
    if workers > MOST_WORKERS {
        return Err(FarmFault::TooManyWorkers);
    }
    if sections.len() > MOST_SECTIONS as usize {
        return Err(FarmFault::TooManySections);
    }
    match check_all(rt, alloc, sections, known, workers, profile, gate) {
        Ok(ledger) => Ok(ledger),
        Err(fault) => Err(fault),
    }
}
