// What the check of a graph asks of its counts and of its tables, each lent as a part of the job.
#![tactic(auto)]

ghost use Rattle.std.specs.Prelude.{◌≡◌, ◌-◌, ◌≤◌, length};
ghost use Rattle.sets.specs.Sets.{gather};
ghost use Rattle.tables.specs.Tables.{row, counts_fit, roles_fit, labels_fit, arrow_rows_fit, kinds_apart};
ghost use Rattle.tables.specs.Gathered.{beyond, raised, rows_together, rows_shared, Reach, Sized};

// The counts of steps, people, roles and actions.
#[derive(Clone, Copy)]
pub struct Counts {
    pub steps: u64,
    pub people: u64,
    pub roles: u64,
    pub actions: u64,
}

impl Counts {
    pub fn fit(self) -> bool
        ensures { result ≡ counts_fit self.steps self.people self.roles self.actions }
    {
        ((1 <= self.steps) & (self.steps <= 64))
            & ((1 <= self.people) & (self.people <= 16))
            & ((1 <= self.roles) & (self.roles <= 16))
            & ((1 <= self.actions) & (self.actions <= 64))
    }
}

// The roles that the rows name.
pub fn roles_named(table: &[u64]) -> u64
    ensures { result ≡ gather (length table.now) (row table.now) }
{
    table.iter().fold(0, |found, row| found | *row)
}

// What the rows from `count` on name. By number: `beyond` speaks of a row's place in the whole table, which a walk over the part behind
// `count` would have to count out again.
fn rows_beyond(table: &[u64], count: usize) -> u64
    requires { count ≤ length table.now }
    ensures { result ≡ gather (length table.now) (beyond count (row table.now)) }
{
    let mut found = 0;
    for i in count..table.len() {
        found = found | table[i];
    }
    found
}

// All rows are gathered, not those below the count alone: where those beyond are empty it is the same. The counts go by one, as the
// definition `roles_fit` has them.
pub fn roles_fit<'a>(
    actions: u64,
    people: u64,
    roles: u64,
    allows: &'a [u64],
    holds: &'a [u64],
) -> bool
    requires { (actions ≤ 64) × (people ≤ 16) × (roles ≤ 16) × (length allows.now ≡ 64) × (length holds.now ≡ 16) }
    ensures { result ≡ roles_fit actions people roles allows.now holds.now }
{
    let x = rows_beyond(allows, actions as usize);
    let y = rows_beyond(holds, people as usize);
    let a = roles_named(allows);
    let b = roles_named(holds);
    (a | b <= sets::full(roles)) & (x | y == 0)
}

// The actions that the rows name, and these moved up.
fn labels_named(labels: &[u64], up: u64) -> u64
    ensures { result ≡ gather (length labels.now) (raised up (row labels.now)) }
{
    labels
        .iter()
        .fold(0, |found, a| found | (*a | a.wrapping_add(up)))
}

// Moved up by what their count lacks of 64, the actions that there are stay below 64, and no other number does: so 64 rows are
// tested at once.
pub fn labels_fit(steps: u64, actions: u64, labels: &[u64]) -> bool
    requires { (steps ≤ 64) × (1 ≤ actions) × (actions ≤ 64) × (length labels.now ≡ 64) }
    ensures { result ≡ labels_fit steps actions labels.now }
{
    let n = steps as usize;
    let x = rows_beyond(labels, n);
    let a = labels_named(labels, 64 - actions);
    (a < 64) & (x == 0)
}

// The arrows of the four kinds, a table for each.
#[derive(Clone, Copy)]
pub struct Kinds<'a> {
    pub conditions: &'a [u64],
    pub responses: &'a [u64],
    pub includes: &'a [u64],
    pub excludes: &'a [u64],
}

// What the tables of arrows name, and what some step both includes and excludes.
#[derive(Clone, Copy)]
struct Seen {
    all: u64,
    both: u64,
}

// Two flags and no refusal: 4 is asked of roles and actions too before 6 is given.
#[derive(Clone, Copy)]
pub struct Arrows {
    pub fit: bool,
    pub apart: bool,
}

impl<'a> Kinds<'a> {
    // The rows from `from` up to `to`, without `to`, of the four tables in one pass.
    fn seen(self, from: usize, to: usize) -> Seen
        requires { (from ≤ to) × Reach to self.conditions.now self.responses.now self.includes.now self.excludes.now }
        ensures all_value { let k = self.entry in result.all ≡ gather to (beyond from
            (rows_together k.conditions.now k.responses.now k.includes.now k.excludes.now)) }
        ensures both_value { let k = self.entry in result.both ≡ gather to (beyond from (rows_shared k.includes.now k.excludes.now)) }
    {
        let mut all = 0;
        let mut both = 0;
        // By number: four tables side by side, of which a `zip` is no plainer.
        for i in from..to {
            let gain = self.includes[i];
            let lose = self.excludes[i];
            all = all | ((self.conditions[i] | self.responses[i]) | (gain | lose));
            both = both | (gain & lose);
        }
        Seen { all, both }
    }

    // A graph of 64 steps: no word names a step beyond, and no row stands beyond. Apart from `checked`
    // for speed (docs/DECISIONS.md, 23): half the rows are read.
    fn full(self) -> Arrows
        requires { Sized 64 self.conditions.now self.responses.now self.includes.now self.excludes.now }
        ensures fit_value { let k = self.entry in result.fit ≡ arrow_rows_fit 64 k.conditions.now k.responses.now
            k.includes.now k.excludes.now }
        ensures apart_value { let k = self.entry in result.apart ≡ kinds_apart 64 k.includes.now k.excludes.now }
    {
        let seen = self.seen(0, 64);
        Arrows {
            fit: true,
            apart: seen.both == 0,
        }
    }

    pub fn checked(self, steps: u64) -> Arrows
        requires { (steps ≤ 64) × Sized 64 self.conditions.now self.responses.now self.includes.now self.excludes.now }
        ensures fit_value { let k = self.entry in result.fit ≡ arrow_rows_fit steps k.conditions.now k.responses.now
            k.includes.now k.excludes.now }
        ensures apart_value { let k = self.entry in result.apart ≡ kinds_apart steps k.includes.now k.excludes.now }
    {
        if steps == 64 {
            return self.full();
        }
        let n = steps as usize;
        let seen = self.seen(0, n);
        let past = self.seen(n, 64);
        Arrows {
            fit: (seen.all <= sets::full(steps)) & (past.all == 0),
            apart: seen.both == 0,
        }
    }
}
