//! The totals of a chart, by the counter groups that serve them.

ghost use Rattle.std.specs.Prelude.{◌≡◌, IfOk, IfSome};
ghost use Rattle.explain_ledgers.specs.LedgersWords.Accounts.{IsAccount};
ghost use Rattle.explain_wheel_ledgers.specs.Totals.{AreAccounts, account_of, find_total, has_place, total_of, total_on, totals_in};

use crate::places::place_of;
use chart_lines::charts::{Line, Name, Statement};
use chart_plans::plans::{Plan, TotalCounter};
use chart_rules::Chart;
use explain_ledgers::ledgers::Account;
use explain_ledgers::ledgers::ledger_text::Title;
use hubs::Group;
use std::alloc::{AllocError, Global};

/// A total of a chart: the counter groups that serve it, and what the chart knows of it.
#[derive(Clone, Copy)]
pub struct TitledAccount {
    /// The groups.
    pub account: Account,
    /// Its amount.
    pub title: Title,
}

// The account of the groups that serve a total.
fn account_of(counter: TotalCounter) -> Option<Account>
    ensures value { result ≡ account_of counter }
    ensures range { IfSome result IsAccount }
{
    match counter {
        TotalCounter::Single { group } => {
            let place = place_of(Group {
                width: group.width,
                number: group.number,
            })?;
            Some(Account::One { place })
        }
        TotalCounter::Coupled { lower, upper } => {
            let upper = place_of(Group {
                width: upper.width,
                number: upper.number,
            })?;
            let lower = place_of(Group {
                width: lower.width,
                number: lower.number,
            })?;
            Some(Account::Coupled { upper, lower })
        }
    }
}

// A total of this amount that this counter serves.
fn total_of(chart: &Chart, counter: TotalCounter, name: Name) -> Option<TitledAccount>
    ensures value { result ≡ total_of chart.now.lines counter name }
    ensures range { IfSome result (λ total. IsAccount total.account) }
{
    let account = account_of(counter)?;
    let field = chart.field(name)?;
    Some(TitledAccount {
        account,
        title: Title {
            name,
            decimals: field.kind.decimals(),
        },
    })
}

// The total on a line of a chart, if it is one.
fn total_on(chart: &Chart, plan: &Plan, line: &Line) -> Option<TitledAccount>
    ensures value { result ≡ total_on chart.now.lines plan.now line.now.number line.now.statement }
    ensures range { IfSome result (λ total. IsAccount total.account) }
{
    match &line.statement {
        Statement::TotalAmount(total) => {
            total_of(chart, plan.counter_on(chart, line.number)?, total.name)
        }
        _ => None,
    }
}

/// The totals of a chart, in the order of their lines, as the plan has them served. Fails only if no memory is left.
pub fn totals_of(
    alloc: Global,
    chart: &Chart,
    plan: &Plan,
) -> Result<Vec<TitledAccount>, AllocError>
    ensures value { IfOk result (λ totals. totals.items ≡ totals_in chart.now.lines plan.now chart.now.lines) }
    ensures accounts { IfOk result (λ totals. AreAccounts totals.items) }
{
    let mut totals = Vec::new(alloc);
    for line in chart.lines() {
        if let Some(total) = total_on(chart, plan, line) {
            totals.push(total)?;
        }
    }
    Ok(totals)
}

// Whether the group of a place is one of those of an account.
fn has_place(account: Account, place: usize) -> bool
    ensures { result ≡ has_place account place }
{
    match account {
        Account::One { place: own } => own == place,
        Account::Coupled { upper, lower } => upper == place || lower == place,
    }
}

/// The first total that the group of a place serves; none if it serves none of these.
pub fn find_total(totals: &[TitledAccount], place: usize) -> Option<TitledAccount>
    requires { AreAccounts totals.now }
    ensures value { result ≡ find_total totals.now place }
    ensures account { IfSome result (λ total. IsAccount total.account) }
{
    for total in totals {
        if has_place(total.account, place) {
            return Some(*total);
        }
    }
    None
}
