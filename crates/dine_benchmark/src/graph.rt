//! Conflict graphs, as users have them: who shares a resource is in conflict with all who share it.

use std::alloc::{AllocError, Global};
use tests_kit::Draw;

/// Which places at a table are in conflict.
#[derive(Drop)]
pub struct Graph {
    /// The pairs, each once, in the order in which they are declared.
    pub pairs: Vec<(u32, u32)>,
    /// The neighbours of each place.
    pub neighbours: Vec<Vec<u32>>,
}

/// What a graph is like. The first number is how many places it has.
#[derive(Clone, Copy)]
pub enum Shape {
    /// A ring.
    Ring(u32),
    /// A clique.
    Clique(u32),
    /// A star with so many centres.
    Star(u32, u32),
    /// Places that share so many resources, of which each uses two. At most so many conflicts.
    Shared(u32, usize, usize),
    /// About so many conflicts, whose ends are drawn.
    Random(u32, usize),
}

impl Shape {
    /// A graph of this shape, drawn where not all graphs of this shape are the same.
    pub fn graph(self, alloc: Global, draw: &mut Draw) -> Result<Graph, AllocError> {
        match self {
            Shape::Ring(places) => Graph::ring(alloc, places),
            Shape::Clique(places) => Graph::clique(alloc, places),
            Shape::Star(places, centres) => Graph::star(alloc, places, centres),
            Shape::Shared(places, resources, most) => {
                Graph::shared(alloc, draw, places, resources, 2, most)
            }
            Shape::Random(places, conflicts) => Graph::random(alloc, draw, places, conflicts),
        }
    }
}

impl Graph {
    // So many places, and no conflict.
    fn new(alloc: Global, places: u32) -> Result<Self, AllocError> {
        let mut neighbours = Vec::new(alloc);
        for _ in 0..places {
            neighbours.push(Vec::new(alloc))?;
        }
        Ok(Graph {
            pairs: Vec::new(alloc),
            neighbours,
        })
    }

    // Whether two places are in conflict.
    fn joins(&self, first: u32, second: u32) -> bool {
        match self.neighbours.get(first as usize) {
            Some(found) => found.contains(&second),
            None => false,
        }
    }

    // Two places are in conflict from now on, if they differ and are in none.
    fn declare(&mut self, first: u32, second: u32) -> Result<(), AllocError> {
        if first == second || self.joins(first, second) {
            return Ok(());
        }
        self.pairs.push((first, second))?;
        if let Some(found) = self.neighbours.get_mut(first as usize) {
            found.push(second)?;
        }
        if let Some(found) = self.neighbours.get_mut(second as usize) {
            found.push(first)?;
        }
        Ok(())
    }

    /// A ring.
    pub fn ring(alloc: Global, places: u32) -> Result<Self, AllocError> {
        let mut graph = Graph::new(alloc, places)?;
        for place in 1..places {
            graph.declare(place - 1, place)?;
        }
        graph.declare(places.saturating_sub(1), 0)?;
        Ok(graph)
    }

    /// A clique: each place with each other one.
    pub fn clique(alloc: Global, places: u32) -> Result<Self, AllocError> {
        let mut graph = Graph::new(alloc, places)?;
        for second in 0..places {
            for first in 0..second {
                graph.declare(first, second)?;
            }
        }
        Ok(graph)
    }

    /// A star, of whose places the first ones are centres: each is in conflict with all places that are none.
    pub fn star(alloc: Global, places: u32, centres: u32) -> Result<Self, AllocError> {
        let mut graph = Graph::new(alloc, places)?;
        for place in centres..places {
            for centre in 0..centres {
                graph.declare(centre, place)?;
            }
        }
        Ok(graph)
    }

    /// Places that share resources: each uses so many, which are drawn. At most so many conflicts.
    pub fn shared(
        alloc: Global,
        draw: &mut Draw,
        places: u32,
        resources: usize,
        uses: usize,
        most: usize,
    ) -> Result<Self, AllocError> {
        let mut graph = Graph::new(alloc, places)?;
        let mut users: Vec<Vec<u32>> = Vec::new(alloc);
        for _ in 0..resources {
            users.push(Vec::new(alloc))?;
        }
        for place in 0..places {
            for _ in 0..uses {
                let resource = draw.below(resources);
                let Some(sharing) = users.get_mut(resource) else {
                    continue;
                };
                for other in sharing.iter() {
                    if graph.pairs.len() < most {
                        graph.declare(*other, place)?;
                    }
                }
                sharing.push(place)?;
            }
        }
        Ok(graph)
    }

    /// About so many conflicts, whose ends are drawn.
    pub fn random(
        alloc: Global,
        draw: &mut Draw,
        places: u32,
        conflicts: usize,
    ) -> Result<Self, AllocError> {
        let mut graph = Graph::new(alloc, places)?;
        for _ in 0..conflicts {
            let first = (draw.below(places as usize) & 0xffff) as u32;
            let second = (draw.below(places as usize) & 0xffff) as u32;
            graph.declare(first, second)?;
        }
        Ok(graph)
    }
}
