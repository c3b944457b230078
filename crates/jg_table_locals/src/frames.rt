//! One thread's list of open frames, each with how many live locals were made in it.

ghost use Rattle.std.specs.Prelude.{◌≡◌, ◌≤◌, ◌<◌, ◌-◌, ◌+◌, ◌^◌, MatchOption, true, false, filter, map, length, slice_index_or, vec_len, vec_capacity};
ghost use Rattle.std.specs.Option.{option_map};
ghost use Rattle.std.specs.List.{AllByRecursion};
ghost use Rattle.jg_table_locals.specs.Seen.{Chain, last, frame_of, is_frame, is_under, is_opened_under, is_from, frame_cmp, at_frame, one_more, one_less, counted_less, with_room};
ghost use Rattle.jg_table_locals.specs.declared.row.Opened.{Opened};

use crate::row::{Frame, LocalSlot, Opened};
use std::alloc::Allocator;
use std::cmp::Ordering;

/// The newest frame.
pub fn newest(frames: &[Opened]) -> Option<Opened>
    ensures { result ≡ last frames.now }
{
    frames.last().copied()
}

/// The newest frame, without its count.
pub fn newest_frame(frames: &[Opened]) -> Option<Frame>
    ensures { result ≡ option_map frame_of (last frames.now) }
{
    match newest(frames) {
        None => None,
        Some(opened) => Some(opened.frame),
    }
}

fn is_under(frame: Frame, other: Frame) -> bool
    ensures { result ≡ is_under frame other }
{
    frame.depth < other.depth || frame.depth == other.depth && frame.frame < other.frame
}

/// Whether there is a newest frame, and not one under the other.
fn ends_from(frames: &[Opened], from: Frame) -> bool
    ensures ends { result ≡ is_from from (option_map frame_of (last frames.now)) }
    ensures some { result ≡ true → 0 < length frames.now }
{
    match newest_frame(frames) {
        None => false,
        Some(frame) => !is_under(frame, from),
    }
}

/// Closes the newest frames that are not under the other.
pub fn close_from<A: Allocator>(frames: &mut Vec<Opened, A>, from: Frame)
    requires { Chain is_opened_under frames.old.items }
    ensures kept { frames.new.items ≡ filter (λ o. is_under o.frame from) frames.old.items }
    ensures room { vec_capacity frames.old - vec_len frames.old ≤ vec_capacity frames.new - vec_len frames.new }
{
    while ends_from(frames, from) {
        frames.pop();
    }
}

/// How the frame lies to that of this depth and number.
fn compare(frame: Frame, depth: u64, number: u64) -> Ordering
    ensures { result ≡ frame_cmp depth number frame }
{
    frame.depth.cmp(&depth).then(frame.frame.cmp(&number))
}

/// Where the frame of this depth and number stands.
fn place_of(frames: &[Opened], depth: u64, number: u64) -> Option<usize>
    requires { Chain is_opened_under frames.now }
    ensures { MatchOption result (AllByRecursion (λ o. is_frame depth number o.frame ≡ false) frames.now)
        (λ i. (i < length frames.now)
        × ((o : Opened) → is_frame depth number (slice_index_or frames.now i o).frame ≡ true)) }
{
    match frames.binary_search_by(|opened| compare(opened.frame, depth, number)) {
        Ok(i) => Some(i),
        Err(_place) => None,
    }
}

/// Counts one live local more in the frame.
pub fn count_more<A: Allocator>(frames: &mut Vec<Opened, A>, depth: u64, number: u64)
    requires opened { Chain is_opened_under frames.old.items }
    requires fits { AllByRecursion (λ o. o.held + 1 < 2 ^ 64) frames.old.items }
    ensures counted { frames.new.items ≡ map (at_frame one_more depth number) frames.old.items }
    ensures room { vec_capacity frames.old - vec_len frames.old ≤ vec_capacity frames.new - vec_len frames.new }
{
    if let Some(i) = place_of(frames, depth, number) {
        frames[i].held += 1;
    }
}

fn one_less(opened: Opened) -> Opened
    ensures { result ≡ one_less opened }
{
    Opened {
        held: opened.held.saturating_sub(1),
        ..opened
    }
}

/// Counts one live local less in the frame.
fn count_less<A: Allocator>(frames: &mut Vec<Opened, A>, depth: u64, number: u64)
    requires { Chain is_opened_under frames.old.items }
    ensures counted { frames.new.items ≡ map (at_frame one_less depth number) frames.old.items }
    ensures room { vec_capacity frames.old - vec_len frames.old ≤ vec_capacity frames.new - vec_len frames.new }
{
    if let Some(i) = place_of(frames, depth, number) {
        frames[i] = one_less(frames[i]);
    }
}

/// Counts the local that is gone no more, if there is one.
pub fn count_gone<A: Allocator>(frames: &mut Vec<Opened, A>, gone: Option<LocalSlot>)
    requires { Chain is_opened_under frames.old.items }
    ensures counted { frames.new.items ≡ counted_less gone frames.old.items }
    ensures room { vec_capacity frames.old - vec_len frames.old ≤ vec_capacity frames.new - vec_len frames.new }
{
    if let Some(slot) = gone {
        count_less(frames, slot.depth, slot.frame);
    }
}

/// Sets the frame's room.
pub fn set_room<A: Allocator>(frames: &mut Vec<Opened, A>, depth: u64, number: u64, room: u64)
    requires { Chain is_opened_under frames.old.items }
    ensures set { frames.new.items ≡ map (at_frame (with_room room) depth number) frames.old.items }
    ensures room { vec_capacity frames.old - vec_len frames.old ≤ vec_capacity frames.new - vec_len frames.new }
{
    if let Some(i) = place_of(frames, depth, number) {
        frames[i].frame.room = room;
    }
}
