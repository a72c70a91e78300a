// The lent store of a protocol end: slots of 1,404 bytes, end to end.
#![tactic(auto)]

ghost use Rattle.std.specs.Prelude.{◌≡◌, ◌+◌, ◌-◌, ◌*◌, ◌%◌, ◌≤◌, ◌<◌, length, replicate, drop, true, cond, ◌++◌};
ghost use Rattle.bounds.specs.Bounds.{max_payload, seq_num_limit, slot_size};
ghost use Rattle.store.specs.Sound.{sender_slots_broken, receiver_slots_broken};
ghost use Rattle.store.specs.Scans.{slot_outside, slots_outside, part_broken};
ghost use Rattle.store.specs.Numbers.{marked_run, marked_count, payloads_from, written_at, PayloadsIn};
ghost use Rattle.store.specs.Slot.{SlotIn, head_bytes, slot_bytes, slot_at, slot_length, slot_mark, slot_flags};
ghost use Rattle.store.specs.Slot.{slot_payload, fill_slot, empty_slot, set_mark, set_flags};
ghost use Rattle.store.specs.Clean.{ZerosFrom, CleanSlot};

use bounds::SLOT_SIZE;

pub fn length_unchecked(store: &[u8], slot: usize) -> u16
    requires { SlotIn store.now slot }
    ensures { result ≡ slot_length (slot_at store.now slot) }
{
    let at = slot * SLOT_SIZE;
    octets::be16(store[at], store[at + 1])
}

pub fn mark_unchecked(store: &[u8], slot: usize) -> u8
    requires { SlotIn store.now slot }
    ensures { result ≡ slot_mark (slot_at store.now slot) }
{
    store[slot * SLOT_SIZE + 2]
}

pub fn flags_unchecked(store: &[u8], slot: usize) -> u8
    requires { SlotIn store.now slot }
    ensures { result ≡ slot_flags (slot_at store.now slot) }
{
    store[slot * SLOT_SIZE + 3]
}

pub fn payload_unchecked(store: &[u8], slot: usize) -> &[u8]
    requires { SlotIn store.now slot × (slot_length (slot_at store.now slot) ≤ max_payload) }
    ensures { result.now ≡ slot_payload (slot_at store.now slot) }
{
    let start = slot * SLOT_SIZE + 4;
    let end = start + length_unchecked(store, slot) as usize;
    &store[start..end]
}

pub fn set_mark_unchecked(store: &mut [u8], slot: usize, mark: u8)
    requires { SlotIn store.old slot }
    ensures { store.new ≡ set_mark store.old slot mark }
{
    store[slot * SLOT_SIZE + 2] = mark;
}

pub fn set_flags_unchecked(store: &mut [u8], slot: usize, flags: u8)
    requires { SlotIn store.old slot }
    ensures { store.new ≡ set_flags store.old slot flags }
{
    store[slot * SLOT_SIZE + 3] = flags;
}

// Fills a slot: the payload, and zeros after it. `clean`: whether the bytes past its length are zeros before.
pub fn fill_unchecked(
    store: &mut [u8],
    slot: usize,
    payload: &[u8],
    mark: u8,
    flags: u8,
    clean: bool,
)
    requires slot_in { SlotIn store.old slot × (length payload.now ≤ max_payload) }
    requires clean_slot { clean ≡ true → CleanSlot (slot_at store.old slot) }
    ensures { store.new ≡ fill_slot store.old slot payload.now mark flags }
{
    let at = slot * SLOT_SIZE;
    let end = at + SLOT_SIZE;
    let used = used_unchecked(store, slot, clean);
    write_slot(&mut store[at..end], payload, mark, flags, used);
}

pub fn empty_unchecked(store: &mut [u8], slot: usize, clean: bool)
    requires slot_in { SlotIn store.old slot }
    requires clean_slot { clean ≡ true → CleanSlot (slot_at store.old slot) }
    ensures { store.new ≡ empty_slot store.old slot }
{
    let at = slot * SLOT_SIZE;
    let end = at + used_unchecked(store, slot, clean);
    octets::clear(&mut store[at..end]);
}

// Empties the first slots of a store; what lies past them is left as it is.
pub fn empty_all_unchecked(store: &mut [u8], slots: usize)
    requires { slots * slot_size ≤ length store.old }
    ensures { store.new
        ≡ replicate (slots * slot_size) 0 ++ drop (slots * slot_size) store.old }
{
    let end = slots * SLOT_SIZE;
    octets::clear(&mut store[..end]);
}

// Whether a sender's slots break document 01's line 9, with count numbers from base on outstanding.
pub fn sender_slots_broken_unchecked(
    selective: bool,
    store: &[u8],
    window: usize,
    base: u32,
    count: usize,
) -> bool
    requires { (0 < window) × (window * slot_size ≤ length store.now) }
    ensures { result ≡ sender_slots_broken selective store.now window base count }
{
    let first = base as usize % window;
    let acknowledged = mark_unchecked(store, first) == 2;
    let behind = count.saturating_sub(window - first);
    let to_the_end = sender_part_broken_unchecked(selective, store, first, window, count);
    let from_the_start = sender_part_broken_unchecked(selective, store, 0, first, behind);
    acknowledged | to_the_end | from_the_start
}

// Whether a receiver's slots break document 01's line 9.
pub fn receiver_slots_broken_unchecked(store: &[u8], window: usize, base: u32) -> bool
    requires { (0 < window) × (window * slot_size ≤ length store.now) }
    ensures { result ≡ receiver_slots_broken store.now window base }
{
    let first = base as usize % window;
    let filled = mark_unchecked(store, first) != 0;
    let to_the_end = slots_outside_unchecked(store, first, window, 0, 1);
    let from_the_start = slots_outside_unchecked(store, 0, first, 0, 1);
    filled | to_the_end | from_the_start
}

// How many of count numbers from first on have this mark, up to the first that has another.
pub fn marked_run_unchecked(
    store: &[u8],
    window: usize,
    first: u32,
    count: usize,
    mark: u8,
) -> usize
    requires { (0 < window) × (window * slot_size ≤ length store.now) × (count ≤ seq_num_limit) }
    ensures { result ≡ marked_run mark store.now window first count }
{
    let mut slot = first as usize % window;
    for k in 0..count {
        if mark_unchecked(store, slot) != mark {
            return k;
        }
        slot = next_slot_unchecked(slot, window);
    }
    count
}

// How many of count numbers from first on have this mark.
pub fn marked_count_unchecked(
    store: &[u8],
    window: usize,
    first: u32,
    count: usize,
    mark: u8,
) -> usize
    requires { (0 < window) × (window * slot_size ≤ length store.now) × (count ≤ seq_num_limit) }
    ensures { result ≡ marked_count mark store.now window first count }
{
    let mut total: usize = 0;
    let mut slot = first as usize % window;
    for _ in 0..count {
        if mark_unchecked(store, slot) == mark {
            total += 1;
        }
        slot = next_slot_unchecked(slot, window);
    }
    total
}

// The length of the payloads of count numbers from first on, joined.
pub fn payloads_length_unchecked(store: &[u8], window: usize, first: u32, count: usize) -> usize
    requires { PayloadsIn store.now window first count × (count ≤ seq_num_limit) }
    ensures value { result ≡ length (payloads_from store.now window first count) }
    ensures upper_bound { result ≤ count * max_payload }
{
    let mut total: usize = 0;
    let mut slot = first as usize % window;
    for _ in 0..count {
        total += length_unchecked(store, slot) as usize;
        slot = next_slot_unchecked(slot, window);
    }
    total
}

// Writes the payloads of count numbers from first on, joined, to the buffer from a place on, and answers where they
// end.
pub fn copy_payloads_unchecked(
    store: &[u8],
    window: usize,
    first: u32,
    count: usize,
    buffer: &mut [u8],
    place: usize,
) -> usize
    requires payloads_in { PayloadsIn store.now window first count × (count ≤ seq_num_limit) }
    requires count_in_bounds { place + length (payloads_from store.now window first count) ≤ length buffer.old }
    ensures value { result ≡ place + length (payloads_from store.now window first count) }
    ensures buffer_after { buffer.new
        ≡ written_at buffer.old place (payloads_from store.now window first count) }
{
    let mut start = place;
    let mut slot = first as usize % window;
    for _ in 0..count {
        let payload = payload_unchecked(store, slot);
        let end = start + payload.len();
        octets::copy_unchecked(payload, &mut buffer[start..end]);
        start = end;
        slot = next_slot_unchecked(slot, window);
    }
    start
}

// The slot of the next number. A comparison in place of `%`, whose division would slow the loops.
fn next_slot_unchecked(slot: usize, window: usize) -> usize
    requires { slot < window }
    ensures { result ≡ (slot + 1) % window }
{
    let next = slot + 1;
    if next == window { 0 } else { next }
}

// Whether of the slots before `to` from `from` on the first count, outstanding, or the others, empty, break line 9;
// mark 2 at base is left aside.
fn sender_part_broken_unchecked(
    selective: bool,
    store: &[u8],
    from: usize,
    to: usize,
    count: usize,
) -> bool
    requires { (from ≤ to) × (to * slot_size ≤ length store.now) }
    ensures { result ≡ part_broken selective store.now from (to - from) count }
{
    let middle = from + count.min(to - from);
    let high = highest_mark(selective);
    let outstanding = slots_outside_unchecked(store, from, middle, 1, high);
    let others = slots_outside_unchecked(store, middle, to, 0, 0);
    outstanding | others
}

// The highest mark of an outstanding number.
fn highest_mark(selective: bool) -> u8
    ensures { result ≡ cond selective 2 1 }
{
    if selective { 2 } else { 1 }
}

// Whether one of the slots before `to` from `from` on has a length out of bounds, or a mark below low or above high. No
// exit in the loop: it is faster so.
fn slots_outside_unchecked(store: &[u8], from: usize, to: usize, low: u8, high: u8) -> bool
    requires { (from ≤ to) × (to * slot_size ≤ length store.now) }
    ensures { result ≡ slots_outside low high store.now from (to - from) }
{
    let mut outside = false;
    for slot in from..to {
        outside |= slot_outside_unchecked(store, slot, low, high);
    }
    outside
}

fn slot_outside_unchecked(store: &[u8], slot: usize, low: u8, high: u8) -> bool
    requires { SlotIn store.now slot }
    ensures { result ≡ slot_outside low high (slot_at store.now slot) }
{
    let length = length_unchecked(store, slot);
    let mark = mark_unchecked(store, slot);
    (bounds::MAX_PAYLOAD_SIZE < length as usize) | (mark < low) | (high < mark)
}

// How many bytes of a slot may be other than 0.
fn used_unchecked(store: &[u8], slot: usize, clean: bool) -> usize
    requires slot_in { SlotIn store.now slot }
    requires clean_slot { clean ≡ true → CleanSlot (slot_at store.now slot) }
    ensures { (result ≤ slot_size) × ZerosFrom result (slot_at store.now slot) }
{
    if clean {
        return 4 + length_unchecked(store, slot) as usize;
    }
    SLOT_SIZE
}

// Fills a slot of which the bytes past those `used` are zeros.
fn write_slot(slot: &mut [u8], payload: &[u8], mark: u8, flags: u8, used: usize)
    requires slot_len { (length slot.old ≡ slot_size) × (length payload.now ≤ max_payload) }
    requires used_le_slot_size { (used ≤ slot_size) × ZerosFrom used slot.old }
    ensures { slot.new ≡ slot_bytes payload.now mark flags }
{
    let n = payload.len();
    write_head(slot, n as u16, mark, flags);
    let end = 4 + n;
    octets::copy_unchecked(payload, &mut slot[4..end]);
    if end < used {
        octets::clear(&mut slot[end..used]);
    }
}

fn write_head(slot: &mut [u8], n: u16, mark: u8, flags: u8)
    requires { 4 ≤ length slot.old }
    ensures { slot.new ≡ head_bytes n mark flags ++ drop 4 slot.old }
{
    let [high, low] = n.to_be_bytes();
    slot[..4].copy_from_slice(&[high, low, mark, flags]);
}
