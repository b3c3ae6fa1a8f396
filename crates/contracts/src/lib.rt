// A contract and its branches, read into the table that the caller lends.

#![tactic(auto)]

ghost use Rattle.std.specs.Prelude.{◌≡◌, ◌+◌, ◌≤◌, ◌<◌};
ghost use Rattle.tables.specs.State.{state_of};
ghost use Rattle.tables.specs.Entries.{most_branches, most_listed};
ghost use Rattle.steps.specs.Filling.{Same};
ghost use Rattle.steps.specs.Steps.{Met, told_state, times};
ghost use Rattle.conditions.specs.Condition.{HasRoom};
ghost use Rattle.contracts.specs.Contract.{action, leaf_at, list_at, read_contract, read_branch, split_at, weighed_at, reveal_at};
ghost use Rattle.contracts.specs.Counts.{Few, Added};

use conditions::condition;
use fields::Refused;
use refusals::Refusal;
use steps::{Filling, letters, num, refused};
use tables::{Action, Head, Sheet, St, is_listed, put_branch, put_listed, put_node};

// The words, each of one byte.
const C: usize = b'c' as usize;

const W: usize = b'w' as usize;

const S: usize = b's' as usize;

const R: usize = b'r' as usize;

const G: usize = b'g' as usize;

// 2^K, K and F; the definition that is read, and how many secrets it has.
#[derive(Clone, Copy)]
pub struct Limits {
    pub all: usize,
    pub people: usize,
    pub defs: usize,
    pub def: usize,
    pub secrets: usize,
}

// An action of which nothing is said but its kind and one number.
fn action(kind: usize, arg: usize) -> Action
    ensures { result ≡ action kind arg 0 0 0 }
{
    Action {
        kind,
        arg,
        first: 0,
        count: 0,
        cond: 0,
    }
}

// `w`,p and `g`,d: a branch with a number below a limit.
fn leaf(filling: &mut Filling, st: St, h: Head, kind: usize, limit: usize) -> Result<St, Refused>
    requires has_room { HasRoom filling.old.request.now st }
    requires branches_lt_most_branches { st.branches < most_branches }
    ensures same { Same filling.old filling.new }
    ensures met { Met (Added filling.old.request.now 1 0 st) (leaf_at filling.old.request.now h kind limit (state_of st filling.old.table.now)) (told_state result) filling.new.table.now }
{
    let (p, e) = num(filling.request, st, Sheet::NUMBER)?;
    if limit <= p {
        return Err(refused(st, Refusal::Unknown));
    }
    Ok(put_branch(filling.table, e, h, action(kind, p)))
}

// A secret of an `r`, whose list starts at `from`.
fn list(filling: &mut Filling, st: St, secrets: usize, from: usize) -> Result<St, Refused>
    requires has_room { HasRoom filling.old.request.now st }
    requires listed_lt_most_listed { st.listed < most_listed }
    ensures same { Same filling.old filling.new }
    ensures met { Met (Added filling.old.request.now 0 1 st) (list_at filling.old.request.now secrets from (state_of st filling.old.table.now)) (told_state result) filling.new.table.now }
{
    let (v, e) = num(filling.request, st, Sheet::NUMBER)?;
    // One reference for both calls: of a table that the field itself lends to be read, no cell is known afterwards.
    let t = &mut *filling.table;
    if is_listed(t, from, e.listed, v) {
        return Err(refused(st, Refusal::Repeated));
    }
    if secrets <= v {
        return Err(refused(st, Refusal::Unknown));
    }
    Ok(put_listed(t, e, v))
}

// The n secrets of an `r`.
fn list_all(
    filling: &mut Filling,
    st: St,
    n: usize,
    secrets: usize,
    from: usize,
) -> Result<St, Refused>
    requires has_room { HasRoom filling.old.request.now st }
    requires n_bound { st.listed + n ≤ most_listed }
    ensures same { Same filling.old filling.new }
    ensures met { Met (Added filling.old.request.now 0 n st) (times n (list_at filling.old.request.now secrets from) (state_of st filling.old.table.now)) (told_state result) filling.new.table.now }
{
    let mut cur = st;
    for _ in 0..n {
        cur = list(filling, cur, secrets, from)?;
    }
    Ok(cur)
}

// A contract: `c`, its count of branches, the branches.
#[cycle(branch_contract_reveal_split_weighed)]
pub fn contract(
    filling: &mut Filling,
    st: St,
    depth: usize,
    parent: usize,
    weight: usize,
    lim: Limits,
) -> Result<St, Refused>
    requires few { Few filling.old.request.now lim st }
    ensures same { Same filling.old filling.new }
    ensures met { Met (Few filling.old.request.now lim) (read_contract filling.old.request.now lim depth parent weight (state_of st filling.old.table.now)) (told_state result) filling.new.table.now }
{
    let (w, e) = letters(filling.request, st)?;
    if w != C {
        return Err(refused(st, Refusal::NotDue));
    }
    if depth == 0 || Sheet::NODES <= e.nodes {
        return Err(refused(st, Refusal::OverLimit));
    }
    let (n, f) = num(filling.request, e, Sheet::BRANCHES_OF_NODE)?;
    let mut cur = put_node(filling.table, f, lim.def, parent, weight, n);
    for _ in 0..n {
        cur = branch(filling, cur, depth - 1, f.nodes, lim)?;
    }
    Ok(cur)
}

// A branch: signers, opening time, an action.
#[cycle(branch_contract_reveal_split_weighed)]
fn branch(
    filling: &mut Filling,
    st: St,
    depth: usize,
    node: usize,
    lim: Limits,
) -> Result<St, Refused>
    requires few { Few filling.old.request.now lim st }
    ensures same { Same filling.old filling.new }
    ensures met { Met (Few filling.old.request.now lim) (read_branch filling.old.request.now lim (read_contract filling.old.request.now lim depth) node (state_of st filling.old.table.now)) (told_state result) filling.new.table.now }
{
    let (signers, e) = num(filling.request, st, Sheet::NUMBER)?;
    if lim.all <= signers {
        return Err(refused(st, Refusal::Unknown));
    }
    if Sheet::BRANCHES <= st.branches {
        return Err(refused(st, Refusal::OverLimit));
    }
    let (opens, f) = num(filling.request, e, Sheet::OPENS)?;
    let (w, g) = letters(filling.request, f)?;
    let h = Head {
        node,
        signers,
        opens,
    };
    match w {
        W => leaf(filling, g, h, Action::WITHDRAW, lim.people),
        S => split(filling, g, h, depth, lim),
        R => reveal(filling, g, h, depth, lim),
        G => leaf(filling, g, h, Action::RENEW, lim.defs),
        _ => Err(refused(f, Refusal::NotDue)),
    }
}

// `s`: its count of parts, and the parts.
#[cycle(branch_contract_reveal_split_weighed)]
fn split(filling: &mut Filling, st: St, h: Head, depth: usize, lim: Limits) -> Result<St, Refused>
    requires few { Few filling.old.request.now lim st }
    requires branches_lt_most_branches { st.branches < most_branches }
    ensures same { Same filling.old filling.new }
    ensures met { Met (Few filling.old.request.now lim) (split_at filling.old.request.now (read_contract filling.old.request.now lim depth) h (state_of st filling.old.table.now)) (told_state result) filling.new.table.now }
{
    let (n, e) = num(filling.request, st, Sheet::PARTS)?;
    if n == 0 {
        return Err(refused(st, Refusal::OutOfRange));
    }
    let next = put_branch(filling.table, e, h, action(Action::SPLIT, n));
    weighed(filling, next, e.branches, n, depth, lim)
}

// n times a weight and a contract.
#[cycle(branch_contract_reveal_split_weighed)]
fn weighed(
    filling: &mut Filling,
    st: St,
    parent: usize,
    n: usize,
    depth: usize,
    lim: Limits,
) -> Result<St, Refused>
    requires few { Few filling.old.request.now lim st }
    requires n_bound { n ≤ 8 }
    ensures same { Same filling.old filling.new }
    ensures met { Met (Few filling.old.request.now lim) (weighed_at filling.old.request.now (read_contract filling.old.request.now lim depth) parent 0 n (state_of st filling.old.table.now)) (told_state result) filling.new.table.now }
{
    let mut cur = st;
    let mut sum = 0;
    for left in (0..n).rev() {
        let (w, e) = num(filling.request, cur, Sheet::WEIGHT)?;
        sum += w;
        if left + sum == 0 {
            return Err(refused(cur, Refusal::NoWeight));
        }
        cur = contract(filling, e, depth, parent, w, lim)?;
    }
    Ok(cur)
}

// `r`: how many secrets, the secrets, a condition and a contract.
#[cycle(branch_contract_reveal_split_weighed)]
fn reveal(filling: &mut Filling, st: St, h: Head, depth: usize, lim: Limits) -> Result<St, Refused>
    requires few { Few filling.old.request.now lim st }
    requires branches_lt_most_branches { st.branches < most_branches }
    ensures same { Same filling.old filling.new }
    ensures met { Met (Few filling.old.request.now lim) (reveal_at filling.old.request.now lim.secrets (read_contract filling.old.request.now lim depth) h (state_of st filling.old.table.now)) (told_state result) filling.new.table.now }
{
    let (n, e) = num(filling.request, st, Sheet::SECRETS)?;
    if n == 0 {
        return Err(refused(st, Refusal::OutOfRange));
    }
    let from = e.listed;
    let f = list_all(filling, e, n, lim.secrets, from)?;
    let (_, q) = condition(filling, f, Sheet::FIELDS, from)?;
    let a = Action {
        kind: Action::REVEAL,
        arg: q.nodes,
        first: from,
        count: n,
        cond: f.cells,
    };
    let next = put_branch(filling.table, q, h, a);
    contract(filling, next, depth, q.branches, 0, lim)
}
