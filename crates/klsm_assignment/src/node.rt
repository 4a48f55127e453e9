//! The nodes of the search.
ghost use Rattle.std.specs.Prelude.{◌<◌};

// What each person would take for each task.
static COSTS: [[u64; 8]; 8] = [
    [54, 21, 87, 33, 76, 48, 92, 65],
    [38, 59, 24, 71, 45, 83, 17, 90],
    [66, 12, 49, 95, 28, 57, 73, 31],
    [82, 44, 61, 19, 88, 36, 53, 77],
    [27, 93, 35, 58, 14, 69, 41, 86],
    [71, 25, 98, 46, 63, 11, 84, 39],
    [15, 67, 52, 80, 37, 74, 29, 96],
    [43, 89, 18, 62, 55, 22, 78, 34],
];

/// A beginning of an assignment: the first people have a task each.
#[derive(Clone, Copy)]
pub(crate) struct Node {
    // Bit i is set where task i has somebody.
    tasks: u8,
    cost: u64,
}

impl Node {
    /// Nobody has a task yet.
    pub(crate) fn root() -> Node {
        Node { tasks: 0, cost: 0 }
    }

    /// The node that an item's load stands for.
    pub(crate) fn of(load: u64) -> Node {
        Node {
            tasks: (load & 0xff) as u8,
            cost: load >> 8,
        }
    }

    /// The node as an item's load.
    pub(crate) fn load(&self) -> u64 {
        self.cost << 8 | u64::from(self.tasks)
    }

    /// The next person takes a task, if it is free.
    pub(crate) fn with(&self, task: usize) -> Option<Node>
        requires { task < 8 }
    {
        let costs = COSTS.get(self.people())?;
        let bit = 1u8 << task;
        if self.tasks & bit != 0 {
            return None;
        }
        Some(Node {
            tasks: self.tasks | bit,
            cost: self.cost.saturating_add(costs[task]),
        })
    }

    /// Whether everybody has a task.
    pub(crate) fn is_complete(&self) -> bool {
        self.people() >= COSTS.len()
    }

    /// The node's key: its bound, so that the most promising node comes first, and of nodes of one bound the one in which the
    /// most people have a task. Nodes are many and bounds few, and an item goes without the shared lock only where its key
    /// is less than that of each shared item.
    pub(crate) fn key(&self) -> u64 {
        self.bound() << 4 | 8u64.saturating_sub(self.people() as u64)
    }

    /// The bound that a key has.
    pub(crate) fn bound_in(key: u64) -> u64 {
        key >> 4
    }

    /// What no completion of the node costs less than: each person left takes the cheapest task of all.
    pub(crate) fn bound(&self) -> u64 {
        let mut bound = self.cost;
        for costs in COSTS.iter().skip(self.people()) {
            bound = bound.saturating_add(cheapest(costs));
        }
        bound
    }

    // How many people have a task.
    fn people(&self) -> usize {
        self.tasks.count_ones() as usize
    }
}

fn cheapest(costs: &[u64; 8]) -> u64 {
    let mut least = u64::MAX;
    for cost in costs {
        least = least.min(*cost);
    }
    least
}
