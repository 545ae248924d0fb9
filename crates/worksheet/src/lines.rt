// The lent lines.
ghost use Rattle.std.specs.Prelude.{◌≡◌, ◌<◌, ◌≤◌, length, take, slice_set};

use rows::Line;

#[derive(Drop)]
pub struct Lines<'a> {
    pub lines: &'a mut [Line],
}

// Puts the line down at the first place of a tail.
fn put_first(tail: &mut [Line], line: Line)
    requires { 0 < length tail.old }
    ensures { tail.new ≡ slice_set tail.old 0 line }
{
    tail[0] = line;
}

// Puts the line down at the first place that is not used, and at no other.
fn put_down(lines: &mut [Line], used: usize, line: Line)
    requires { used < length lines.old }
    ensures { lines.new ≡ slice_set lines.old used line }
{
    put_first(&mut lines[used..], line);
}

impl<'a> Lines<'a> {
    // How many lines are lent.
    pub(crate) fn count(&self) -> usize
        ensures { result ≡ length self.now.lines.now }
    {
        self.lines.len()
    }

    // The lines that are used.
    pub(crate) fn front(&self, used: usize) -> &[Line]
        requires { used ≤ length self.now.lines.now }
        ensures { result.now ≡ take used self.now.lines.now }
    {
        &self.lines[0..used]
    }

    // Puts the line down at the first place that is not used, and at no other.
    pub(crate) fn write(&mut self, used: usize, line: Line)
        requires { used < length self.old.lines.now }
        ensures { self.new.lines.now ≡ slice_set self.old.lines.now used line }
    {
        put_down(self.lines, used, line);
    }
}
