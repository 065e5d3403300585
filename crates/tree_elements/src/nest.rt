ghost use Rattle.std.specs.Prelude.{◌≡◌, IfOk};
ghost use Rattle.base_texts.specs.Stops.{Gives};
ghost use Rattle.tree_elements.specs.Reading.{GivesAs, State, seen, start, step, begun, opened, attach, ended_by, finished, inside_of, may_stand, element_of, with_child};
ghost use Rattle.spec_tree_file.specs.Elements.{is_models};

use crate::mark::{Front, Mark};
use crate::scan::{all_white, single_names};
use base_texts::{Items, Name, NoMemory, Stop};
use spec_tree_file::{Element, ElementFault};
use std::alloc::Global;

/// How many elements may stand in one another, the document element counted.
const MOST_DEPTH: usize = 258;

/// An element that has not ended yet.
#[derive(Drop)]
pub struct Open {
    pub name: Name,
    pub attributes: Items<(Name, Name)>,
    pub children: Items<Element>,
    pub place: u32,
    /// Whether its content stands inside an element named `TreeNodesModel`.
    pub inside: bool,
}

/// The elements that have not ended, and the document element once it has.
#[derive(Drop)]
pub struct Nest {
    pub stack: Vec<Open>,
    pub done: Option<Element>,
}

impl Open {
    /// The element, which ends here.
    fn ended(self) -> Element
        ensures { result ≡ element_of self }
    {
        let Open {
            name,
            attributes,
            children,
            place,
            inside: _,
        } = self;
        Element {
            name,
            attributes,
            children,
            place,
        }
    }

    /// The element with one more child, its last. `NoMemory` where an allocation fails.
    fn with(self, child: Element) -> Result<Open, NoMemory>
        ensures { IfOk result (λ o. o ≡ with_child self child) }
    {
        let Open {
            name,
            attributes,
            children,
            place,
            inside,
        } = self;
        let mut children = children.into_vec();
        children.push(child)?;
        let children = Items::of(children);
        Ok(Open {
            name,
            attributes,
            children,
            place,
            inside,
        })
    }
}

impl Nest {
    /// The nest before the first mark: nothing has begun.
    pub fn new(alloc: Global) -> Nest
        ensures { seen result ≡ start }
    {
        Nest {
            stack: Vec::new(alloc),
            done: None,
        }
    }

    /// Whether the text may stand here: it is white space, or stands inside of `TreeNodesModel`.
    pub fn allows(&self, text: &[u8]) -> bool
        ensures { result ≡ may_stand (seen self.now) text.now }
    {
        all_white(text) || self.done.is_none() && self.inside()
    }

    /// The document element, where the file ends at this place. The fault `Unmatched` where it has not ended.
    pub fn finish(self, place: u32) -> Result<Element, Stop<ElementFault>>
        ensures { Gives result (finished (seen self) place) }
    {
        let Nest { stack: _, done } = self;
        ended_by(done, place)
    }

    /// Whether what stands here is inside of `TreeNodesModel`.
    fn inside(&self) -> bool
        ensures { result ≡ inside_of (seen self.now).stack }
    {
        match self.stack.last() {
            Some(open) => open.inside,
            None => false,
        }
    }

    /// Takes the mark that stands at this place. Its faults are `DoubleAttribute`, `Unmatched` and `TooDeep`.
    pub fn take(&mut self, alloc: Global, mark: Mark, place: u32) -> Result<(), Stop<ElementFault>>
        ensures { GivesAs (λ _. seen self.new) result (step (seen self.old) place mark) }
    {
        match mark {
            Mark::Start(front) => self.begin(alloc, front, place),
            Mark::Empty(front) => self.add(alloc, front, place),
            Mark::End(name) => self.end(&name, place),
            Mark::Aside => Ok(()),
        }
    }

    /// Takes a start mark.
    fn begin(&mut self, alloc: Global, front: Front, place: u32) -> Result<(), Stop<ElementFault>>
        ensures { GivesAs (λ _. seen self.new) result (step (seen self.old) place (Mark.Start front)) }
    {
        let open = self.begun(alloc, front, place)?;
        self.stack.push(open)?;
        Ok(())
    }

    /// Takes an empty mark, a start and an end in one.
    fn add(&mut self, alloc: Global, front: Front, place: u32) -> Result<(), Stop<ElementFault>>
        ensures { GivesAs (λ _. seen self.new) result (step (seen self.old) place (Mark.Empty front)) }
    {
        let open = self.begun(alloc, front, place)?;
        self.attach(open.ended())?;
        Ok(())
    }

    /// Takes an end mark. The fault `Unmatched` where it does not name the innermost open element.
    fn end(&mut self, name: &Name, place: u32) -> Result<(), Stop<ElementFault>>
        ensures { GivesAs (λ _. seen self.new) result (step (seen self.old) place (Mark.End name.now)) }
    {
        let Some(open) = self.stack.pop() else {
            return Err(Stop::Fault(ElementFault::Unmatched { place }));
        };
        if open.name != *name {
            return Err(Stop::Fault(ElementFault::Unmatched { place }));
        }
        self.attach(open.ended())?;
        Ok(())
    }

    /// The element that begins at this place, or the fault of its mark.
    fn begun(&self, alloc: Global, front: Front, place: u32) -> Result<Open, Stop<ElementFault>>
        ensures { Gives result (begun (seen self.now) place front) }
    {
        if !single_names(alloc, front.attributes.list())? {
            return Err(Stop::Fault(ElementFault::DoubleAttribute { place }));
        }
        if self.done.is_some() {
            return Err(Stop::Fault(ElementFault::Unmatched { place }));
        }
        if self.stack.len() >= MOST_DEPTH {
            return Err(Stop::Fault(ElementFault::TooDeep { place }));
        }
        Ok(self.opened(alloc, front, place))
    }

    /// The element that begins at this place, where its mark has no fault.
    fn opened(&self, alloc: Global, front: Front, place: u32) -> Open
        ensures { result ≡ opened (seen self.now).stack place front }
    {
        let inside = self.inside() || is_models(&front.name);
        let Front { name, attributes } = front;
        Open {
            name,
            attributes,
            children: Items::of(Vec::new(alloc)),
            place,
            inside,
        }
    }

    /// Puts an element that has ended into the innermost open one; where none is open it is the document element.
    fn attach(&mut self, element: Element) -> Result<(), NoMemory>
        ensures { IfOk result (λ _. seen self.new ≡ attach element (seen self.old).stack) }
    {
        match self.stack.pop() {
            None => self.done = Some(element),
            Some(parent) => {
                self.stack.push(parent.with(element)?)?;
                self.done = None;
            }
        }
        Ok(())
    }
}

/// The document element, where the file ends at this place. The fault `Unmatched` where there is none.
fn ended_by(done: Option<Element>, place: u32) -> Result<Element, Stop<ElementFault>>
    ensures { Gives result (ended_by done place) }
{
    done.ok_or(Stop::Fault(ElementFault::Unmatched { place }))
}

/// Whether the name is `TreeNodesModel`.
fn is_models(name: &Name) -> bool
    ensures { result ≡ is_models name.now }
{
    name.list() == b"TreeNodesModel".as_slice()
}
