ghost use Rattle.std.specs.Prelude.{◌≡◌, ◌≢◌, nat_lt, [], OnOk};
ghost use Rattle.std.specs.List.{list_all};
ghost use Rattle.byte_layout.specs.Outcome.{Gives};
ghost use Rattle.byte_layout.specs.Layout.{each};
ghost use Rattle.scenario_layout.specs.Growing.{items_with_next};
ghost use Rattle.scenario_layout.specs.Class.{account, accounts, with_accounts};

use crate::class::refusal::refusal;
use byte_layout::{Break, ReadError, u8_at_most, u16_at};
use device_template::Template;

/// Adds the accounts at the front of the bytes to a class that has none, and gives the bytes after them.
#[tactic(auto, unfolding(crate::specs::Class::accounts))]
pub(crate) fn accounts_at<'a>(
    template: &mut Template,
    bytes: &'a [u8],
) -> Result<&'a [u8], ReadError>
    requires { template.now.accounts ≡ [] }
    ensures read { Gives (λ rest. (template.new.accounts, rest.now)) result (accounts.read bytes.now) }
    ensures made { OnOk result (template.new ≡ with_accounts template.old template.new.accounts) }
{
    let (count, rest) = u8_at_most(4, bytes)?;
    accounts_each(template, count, rest)
}

fn accounts_each<'a>(
    template: &mut Template,
    count: u8,
    bytes: &'a [u8],
) -> Result<&'a [u8], ReadError>
    requires { template.now.accounts ≡ [] }
    ensures read { Gives (λ rest. (template.new.accounts, rest.now)) result ((each account count []).read bytes.now) }
    ensures made { OnOk result (template.new ≡ with_accounts template.old template.new.accounts) }
{
    let mut rest = bytes;
    for _ in 0..count {
        let after = account_at(template, rest)?;
        rest = after;
    }
    Ok(rest)
}

/// Adds the account at the front of the bytes.
#[tactic(auto, unfolding(crate::specs::Class::account))]
fn account_at<'a>(template: &mut Template, bytes: &'a [u8]) -> Result<&'a [u8], ReadError>
    ensures read { Gives (λ rest. (template.new.accounts, rest.now)) result
        (items_with_next template.old.accounts ((account template.old.accounts).read bytes.now)) }
    ensures made { OnOk result (template.new ≡ with_accounts template.old template.new.accounts) }
{
    let (number, rest) = u16_at(bytes)?;
    if !is_above(number, template.accounts()) {
        return Err(ReadError::Fault(Break::BadField(bytes.len())));
    }
    if let Err(fault) = template.add_account(number) {
        return Err(refusal(fault, bytes.len()));
    }
    Ok(rest)
}

fn is_above(number: u16, before: &[u16]) -> bool
    ensures { result ≡ list_all (λ m. nat_lt m number) before.now }
{
    before.iter().all(|m| *m < number)
}
