// A breadth-first search: the marks of the numbers below N, 0 where there is none, and the queue of those that have one.

#![tactic(auto)]

ghost use Rattle.std.specs.Prelude.{◌≡◌, ◌+◌, ◌≤◌, ◌<◌, if◌then◌else◌, ◌==◌, slice_index, slice_set, replicate};

// The marks are lent, as they stay when the search is over.
#[derive(Drop)]
pub struct Search<'a, const N: usize> {
    pub marks: &'a mut [usize; N],
    pub queue: [usize; N],
    pub len: usize,
    pub ghost within: { len ≤ N },
}

impl<'a, const N: usize> Search<'a, N> {
    // With nothing in the queue.
    pub fn new(marks: &'a mut [usize; N]) -> Search<'a, N>
        ensures same { result.marks.ghost_name ≡ marks.entry.ghost_name }
        ensures marks { result.marks.now ≡ marks.old }
        ensures queue { result.queue ≡ replicate N 0 }
        ensures len { result.len ≡ 0 }
    {
        Search {
            marks,
            queue: [0; N],
            len: 0,
        }
    }

    // Number i gets the mark and goes into the queue, if it has no mark yet.
    pub fn visit(&mut self, i: usize, mark: usize)
        requires i_in_bounds { i < N }
        requires room { slice_index self.old.marks.now i ≡ 0 → self.old.len < N }
        ensures same { self.new.marks.ghost_name ≡ self.old.marks.ghost_name }
        ensures marks { self.new.marks.now ≡ if slice_index self.old.marks.now i == 0 then slice_set self.old.marks.now i mark else self.old.marks.now }
        ensures queue { self.new.queue ≡ if slice_index self.old.marks.now i == 0 then slice_set self.old.queue self.old.len i else self.old.queue }
        ensures len { self.new.len ≡ if slice_index self.old.marks.now i == 0 then self.old.len + 1 else self.old.len }
    {
        if self.marks[i] == 0 {
            self.marks[i] = mark;
            self.queue[self.len] = i;
            self.len += 1;
        }
    }
}
