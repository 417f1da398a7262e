use decomposition::Parts;
use std::fmt;

// What was found in a table: the node of each state, the component of each node, and for each state whether each choice is
// inside. The counts say how many choices each state has.
#[derive(Clone, Copy)]
pub(crate) struct Found<'a> {
    pub(crate) parts: &'a Parts,
    pub(crate) counts: &'a [u32],
}

// A state's number is a `u32`, in which `enumerate` does not count: the counts are taken along with a range.
impl<'a> Found<'a> {
    fn nodes<W: fmt::Write>(&self, f: &mut fmt::Formatter<W>) -> fmt::Result {
        write!(f, "nodes")?;
        for (state, _) in (0..u32::MAX).zip(self.counts) {
            let node = self.parts.node_of(state);
            write!(f, " {node}")?;
        }
        Ok(())
    }

    fn components<W: fmt::Write>(&self, f: &mut fmt::Formatter<W>) -> fmt::Result {
        write!(f, " components")?;
        for node in 0..self.parts.nodes() {
            match self.parts.component_at(node) {
                Some(component) => write!(f, " {component}")?,
                None => write!(f, " -")?,
            }
        }
        Ok(())
    }

    fn inside<W: fmt::Write>(&self, f: &mut fmt::Formatter<W>) -> fmt::Result {
        write!(f, " inside")?;
        for (state, count) in (0..u32::MAX).zip(self.counts) {
            write!(f, " ")?;
            for choice in 0..*count {
                let mark = u8::from(self.parts.is_inside(state, choice));
                write!(f, "{mark}")?;
            }
        }
        Ok(())
    }
}

impl<'a> fmt::Display for Found<'a> {
    fn fmt<W: fmt::Write>(&self, f: &mut fmt::Formatter<W>) -> fmt::Result {
        self.nodes(f)?;
        self.components(f)?;
        self.inside(f)
    }
}
