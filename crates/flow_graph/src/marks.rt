// The marks of contexts, one after the other.
ghost use Rattle.std.specs.Prelude.{◌≡◌};
ghost use Rattle.flow_graph.specs.Left.{left_in};
ghost use Rattle.flow_graph.specs.Weaving.{next_resource, behind_next};

use context_walk::Mark;

/// Marks, of which the first were taken.
#[derive(Clone, Copy, Debug)]
pub struct Marks<'m> {
    marks: &'m [Mark],
}

impl<'m> Marks<'m> {
    /// All of these marks.
    pub fn new(marks: &'m [Mark]) -> Marks<'m>
        ensures { result.marks.now ≡ marks.now }
    {
        Marks { marks }
    }

    /// Takes the next mark, and tells the resource that it names.
    pub fn next_resource(&mut self) -> u32
        ensures resource { result ≡ next_resource (left_in self.old) }
        ensures left { left_in self.new ≡ behind_next (left_in self.old) }
    {
        let Some((first, others)) = self.marks.split_first() else {
            return 0;
        };
        self.marks = others;
        match first {
            Mark::Resource(resource) => u32::from(*resource),
            Mark::Enters(_) => 0,
        }
    }
}
