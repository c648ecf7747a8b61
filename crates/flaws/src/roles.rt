// Numbers 2, 3 and 4 of a sheet: its counts, the sizes of the bodies that hang on them, and what is named beyond them.
ghost use Rattle.std.specs.Prelude.{◌≤◌};

use crate::said::{Body, Sheet};
use finding::markings::{first_stray, say_beyond};
use finding::parts::beyond;
use finding::words::{All, say_finding};
use lines::display::Set;
use output::page::Page;

pub fn say_counts(page: &mut Page, sheet: Sheet) {
    let steps = sheet.steps();
    let people = sheet.people();
    let roles = sheet.roles();
    let actions = sheet.actions();
    if !(1..=64).contains(&steps) {
        say_finding(page, format_args!("{steps} steps"), "1 to 64");
    } else if !(1..=16).contains(&people) {
        say_finding(page, format_args!("{people} people"), "1 to 16");
    } else if !(1..=16).contains(&roles) {
        say_finding(page, format_args!("{roles} roles"), "1 to 16");
    } else {
        say_finding(page, format_args!("{actions} actions"), "1 to 64");
    }
}

// A body should have so many bytes for each of a count.
fn say_size(page: &mut Page, sheet: Sheet, body: Body, wants: usize, many: &str, of: All) {
    let size = sheet.size(body);
    say_finding(
        page,
        format_args!("{body} has {size} bytes"),
        format_args!("{wants}, {many} for each of the {of}"),
    );
}

pub fn say_sizes(page: &mut Page, sheet: Sheet) {
    let actions = sheet.actions();
    let people = sheet.people();
    let steps = sheet.steps();
    if sheet.size(Body::Allows) != 2 * actions {
        let of = if sheet.is_five() { "steps" } else { "actions" };
        say_size(
            page,
            sheet,
            Body::Allows,
            2 * actions,
            "two",
            All(of, actions as u64),
        );
    } else if sheet.size(Body::Holds) != 2 * people {
        say_size(
            page,
            sheet,
            Body::Holds,
            2 * people,
            "two",
            All("people", people as u64),
        );
    } else {
        say_size(
            page,
            sheet,
            Body::Actions,
            steps,
            "one",
            All("steps", steps as u64),
        );
    }
}

// A role set that names roles beyond the count: whose it is, and those roles.
#[derive(Clone, Copy)]
struct Extra {
    at: usize,
    roles: u64,
}

// The first of the role sets that names roles beyond theirs.
fn first_extra(sets: &[u8], roles: usize) -> Option<Extra>
    requires { roles ≤ 64 }
{
    let (sets, _) = sets.as_chunks::<2>();
    for (at, set) in sets.iter().enumerate() {
        let more = beyond(roles as u64, u16::from_le_bytes(*set) as u64);
        if more != 0 {
            return Some(Extra { at, roles: more });
        }
    }
    None
}

fn say_extra(page: &mut Page, x: Extra, whose: &str, roles: usize) {
    let Extra { at, .. } = x;
    let extra = Set(x.roles);
    say_finding(
        page,
        format_args!("roles {extra} of {whose} {at}"),
        All("roles", roles as u64),
    );
}

// The first step whose action is not there.
fn say_unknown(page: &mut Page, sheet: Sheet) {
    let actions = sheet.actions();
    for (step, action) in sheet.bytes(Body::Actions).iter().enumerate() {
        if actions <= *action as usize {
            say_finding(
                page,
                format_args!("action {action} of step {step}"),
                All("actions", actions as u64),
            );
            return;
        }
    }
}

fn say_rows(page: &mut Page, sheet: Sheet) {
    let roles = sheet.roles();
    if 64 < roles {
        return;
    }
    if let Some(x) = first_extra(sheet.bytes(Body::Allows), roles) {
        let whose = if sheet.is_five() { "step" } else { "action" };
        say_extra(page, x, whose, roles);
    } else if let Some(x) = first_extra(sheet.bytes(Body::Holds), roles) {
        say_extra(page, x, "person", roles);
    } else {
        say_unknown(page, sheet);
    }
}

pub fn say_sets(page: &mut Page, sheet: Sheet) {
    let n = sheet.steps() as u64;
    if 64 < n {
        return;
    }
    match first_stray(n, sheet.first_marking()) {
        Some(stray) => say_beyond(page, stray, " of the first marking", n),
        None => say_rows(page, sheet),
    }
}
