//! The strongly connected components of a search's states: those from each of which links lead to each.
//!
//! By Tarjan's algorithm in the form of D. J. Pearce, with one number for each state, and with a list of the states
//! that are gone through in place of a recursion.

use crate::graph::Graph;
use std::alloc::{AllocError, Global};

/// The number of a state that is left out.
const LEFT_OUT: u32 = u32::MAX;

/// A state that is gone through: the link that is next, the one behind its last, and whether no state before it was
/// met.
#[derive(Clone, Copy)]
struct Visit {
    state: u32,
    next: u32,
    end: u32,
    is_root: bool,
}

/// The components, and the states of those that are fair, in which each core has a link.
#[derive(Drop)]
pub struct Components {
    // Of each state 0 where it was not met; while its component is open, a number that is the lower the earlier one of
    // its states was met; then that of its component, which is above these.
    numbers: Vec<u32>,
    // The states that are gone through, each met from the one before.
    visits: Vec<Visit>,
    // Those that were gone through, whose component is open.
    waiting: Vec<u32>,
    // The number of the state that is met next.
    next: u32,
    // That of the component that is closed next.
    component: u32,
    // Of each core whether it has a link in the component that is closed.
    has_link: Vec<bool>,
    /// How many states lie in fair components.
    pub states: u32,
    /// The first of them.
    pub first: Option<u32>,
}

impl Components {
    /// Those of a search of so many cores, of states for which this says so, and that are none of the ends.
    pub fn of(
        alloc: Global,
        graph: &Graph<'_>,
        cores: u8,
        among: &[bool],
        ends: &[u32],
    ) -> Result<Components, AllocError> {
        let mut components = Components {
            numbers: numbers_of(alloc, among, ends)?,
            visits: Vec::new(alloc),
            waiting: Vec::new(alloc),
            next: 1,
            component: LEFT_OUT - 1,
            has_link: vec![in alloc; false; usize::from(cores)]?,
            states: 0,
            first: None,
        };
        for state in 0..among.len() {
            components.visit_from(graph, state)?;
        }
        Ok(components)
    }

    /// Whether a link leads from one state to another of the same component.
    pub fn is_inner(&self, graph: &Graph<'_>, link: u32) -> bool {
        let (Some(from), Some(to)) = (graph.origin(link), graph.target(link)) else {
            return false;
        };
        self.number(from) == self.number(to)
    }

    fn number(&self, state: u32) -> u32 {
        number_at(self.numbers.as_slice(), state)
    }

    // Goes through all states that links lead to from this one, where it was not met.
    fn visit_from(&mut self, graph: &Graph<'_>, state: usize) -> Result<(), AllocError> {
        let Ok(state) = u32::try_from(state) else {
            return Ok(());
        };
        if self.number(state) != 0 {
            return Ok(());
        }
        self.meet(graph, state)?;
        // Each state is met and closed once, and each link is looked at once or, where a state is met by it, twice.
        'moves: for _ in 0..u64::MAX {
            let Some(visit) = self.visits.pop() else {
                return Ok(());
            };
            self.go_on(graph, visit)?;
        }
        Ok(())
    }

    // Meets a state.
    fn meet(&mut self, graph: &Graph<'_>, state: u32) -> Result<(), AllocError> {
        let (next, end) = graph.span(state);
        set_number(&mut self.numbers, state, self.next);
        self.next = self.next.saturating_add(1);
        self.visits.push(Visit {
            state,
            next,
            end,
            is_root: true,
        })?;
        Ok(())
    }

    // Goes on from a state along its next link.
    fn go_on(&mut self, graph: &Graph<'_>, visit: Visit) -> Result<(), AllocError> {
        if visit.next >= visit.end {
            return self.close(graph, visit);
        }
        let number = match graph.target(visit.next) {
            Some(to) => self.number(to),
            None => LEFT_OUT,
        };
        if number == 0 {
            self.visits.push(visit)?;
            return self.meet_target(graph, visit.next);
        }
        let is_earlier = number < self.number(visit.state);
        if is_earlier {
            set_number(&mut self.numbers, visit.state, number);
        }
        self.visits.push(Visit {
            next: visit.next + 1,
            is_root: visit.is_root && !is_earlier,
            ..visit
        })?;
        Ok(())
    }

    // Meets the state to which a link leads.
    fn meet_target(&mut self, graph: &Graph<'_>, link: u32) -> Result<(), AllocError> {
        match graph.target(link) {
            Some(to) => self.meet(graph, to),
            None => Ok(()),
        }
    }

    // A state all of whose links were gone along. Where none led to a state before it, its component is whole.
    fn close(&mut self, graph: &Graph<'_>, visit: Visit) -> Result<(), AllocError> {
        self.waiting.push(visit.state)?;
        if !visit.is_root {
            return Ok(());
        }
        let Components {
            numbers,
            waiting,
            has_link,
            ..
        } = self;
        let kept = count_before(numbers.as_slice(), waiting.as_slice(), visit.state);
        let states = waiting.as_slice().get(kept..).unwrap_or(&[]);
        set_numbers(numbers, states, self.component);
        self.component = self.component.saturating_sub(1);
        note_links(graph, numbers.as_slice(), states, has_link);
        if has_link.iter().all(|has| *has) {
            self.states = self
                .states
                .saturating_add(u32::try_from(states.len()).unwrap_or(u32::MAX));
            self.first = earliest(self.first, states);
        }
        self.waiting.truncate(kept);
        Ok(())
    }
}

// The numbers before the first state is met.
fn numbers_of(alloc: Global, among: &[bool], ends: &[u32]) -> Result<Vec<u32>, AllocError> {
    let mut numbers = Vec::with_capacity(alloc, among.len())?;
    for is_among in among {
        numbers.push(if *is_among { 0 } else { LEFT_OUT })?;
    }
    for end in ends {
        set_number(&mut numbers, *end, LEFT_OUT);
    }
    Ok(numbers)
}

fn number_at(numbers: &[u32], state: u32) -> u32 {
    numbers.get(state as usize).copied().unwrap_or(LEFT_OUT)
}

fn set_number(numbers: &mut Vec<u32>, state: u32, number: u32) {
    let index = state as usize;
    if index < numbers.len() {
        numbers[index] = number;
    }
}

fn set_numbers(numbers: &mut Vec<u32>, states: &[u32], number: u32) {
    for state in states {
        set_number(numbers, *state, number);
    }
}

// How many of those that wait belong to states that were met before this one: all but the last whose numbers are not
// below its.
fn count_before(numbers: &[u32], waiting: &[u32], state: u32) -> usize {
    let least = number_at(numbers, state);
    let mut left = waiting;
    'waiting: while let Some((last, before)) = left.split_last() {
        if number_at(numbers, *last) < least {
            return left.len();
        }
        left = before;
    }
    0
}

// Of each core whether it has a link from one of these states to another, all of which have one number.
fn note_links(graph: &Graph<'_>, numbers: &[u32], states: &[u32], has_link: &mut Vec<bool>) {
    has_link.as_mut_slice().fill(false);
    for state in states {
        note_links_of(graph, numbers, *state, has_link);
    }
}

// As [`note_links`], of one of these states.
fn note_links_of(graph: &Graph<'_>, numbers: &[u32], state: u32, has_link: &mut Vec<bool>) {
    let (start, end) = graph.span(state);
    for link in start..end {
        if let (Some(to), Some(core)) = (graph.target(link), graph.core(link)) {
            if number_at(numbers, to) == number_at(numbers, state) {
                note(has_link, core);
            }
        }
    }
}

/// Notes a core in a row that has one place for each.
pub fn note(row: &mut Vec<bool>, core: u8) {
    let index = usize::from(core);
    if index < row.len() {
        row[index] = true;
    }
}

// The least of these states, and of one that was found before.
fn earliest(first: Option<u32>, states: &[u32]) -> Option<u32> {
    let least = states.iter().copied().min();
    match (first, least) {
        (Some(first), Some(least)) => Some(first.min(least)),
        (None, least) => least,
        (first, None) => first,
    }
}
