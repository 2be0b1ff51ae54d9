//! What bytes mean, apart from what they go through.

ghost use Rattle.std.specs.Prelude.{◌≡◌, ◌≤◌, ◌<◌, ◌+◌, ℕ, Bool, List, Option};
ghost use Rattle.std.specs.Prelude.{length, take, drop};
ghost use Rattle.rfb_session.specs.doors.Events.{Stepping, Received, Ended, Failed, Wrote, Turned};

/// What the bytes at numbered doors mean, without any IO. A loop reports to it what happens at its
/// doors, and each such call is a step. A number at which it has no door is a door with no room
/// where nothing waits.
pub trait Core {
    // What it may become when it is told something.
    ghost steps: { Stepping Self };

    // The bytes that wait to leave at a door.
    ghost waiting: { Self → ℕ → List ℕ };

    // How many bytes it would take at a door.
    ghost space: { Self → ℕ → ℕ };

    // Whether a door may be closed as soon as nothing waits there.
    ghost closed: { Self → ℕ → Bool };

    // When it wants to be called next even if nothing comes before, in milliseconds.
    ghost due: { Self → Option ℕ };

    /// How many bytes it would take at a door now. At 0 the door is not read. It is a promise that
    /// lasts until so many have been received there.
    fn room(&self, door: usize) -> usize
        ensures { result ≡ space self.now door };

    /// Takes bytes that came at a door, from the front, and returns how many: one at least. The
    /// loop brings the rest at once, so what it had room for it still has room for.
    fn received(&mut self, door: usize, bytes: &[u8]) -> usize
        requires some { 0 < length bytes.now }
        requires room { length bytes.now ≤ space self.old door }
        ensures some { 0 < result }
        ensures bound { result ≤ length bytes.now }
        ensures steps { steps self.old (Received door (take result bytes.now)) self.new }
        ensures room { space self.old door ≤ space self.new door + result };

    /// All bytes of a door have come. The loop may report that again as long as there is room, so a
    /// core has none there from then on.
    fn ended(&mut self, door: usize)
        ensures { steps self.old (Ended door) self.new };

    /// A read or a write at a door has failed. No more bytes come there, and none leave. What still
    /// waits would keep the door from being closed, so a core drops it.
    fn failed(&mut self, door: usize)
        ensures { steps self.old (Failed door) self.new };

    /// The bytes that wait to leave at a door.
    fn to_write(&self, door: usize) -> &[u8]
        ensures { result.now ≡ waiting self.now door };

    /// So many bytes of those that waited at a door have left, from the front.
    fn written(&mut self, door: usize, count: usize)
        requires some { 0 < count }
        requires bound { count ≤ length (waiting self.old door) }
        ensures steps { steps self.old (Wrote door (take count (waiting self.old door))) self.new }
        ensures left { waiting self.new door ≡ drop count (waiting self.old door) };

    /// Whether a door may be closed as soon as nothing waits there.
    fn is_closed(&self, door: usize) -> bool
        ensures { result ≡ closed self.now door };

    /// All that was ready has been heard, and it is this time, in milliseconds. Returns when it
    /// wants to be called next even if nothing comes before; none where it need not be.
    fn turned(&mut self, now: u64) -> Option<u64>
        ensures steps { steps self.old (Turned now) self.new }
        ensures due { result ≡ due self.new };
}
