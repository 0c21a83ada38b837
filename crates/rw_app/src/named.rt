//! The goals of a document, by name.

ghost use Rattle.std.specs.Prelude.{◌≡◌, IfSome, find};
ghost use Rattle.std.specs.Option.{option_map};
ghost use Rattle.std.specs.Str.{bytes_eq};
ghost use Rattle.rw_schema.specs.Presentation.{signature_of};
ghost use Rattle.rw_rule.specs.RuleParts.{goal_of_parts};
ghost use Rattle.rw_lists.specs.Fresh.{IsListable};
ghost use Rattle.rw_document.specs.Models.{document_lists};
ghost use Rattle.rw_app.specs.Kept.{HasGoals, named_goals};

use rw_document::Document;
use rw_rule::{Goal, Rule, Watch};
use rw_schema::Text;

/// A goal whose list is kept, and its name.
#[derive(Clone, Copy)]
pub(crate) struct Named<'a> {
    pub(crate) name: &'a Text,
    pub(crate) goal: &'a Goal,
}

/// The goal of the rule or the watch with the name.
pub(crate) fn goal_named<'a>(document: &'a Document, name: &str) -> Option<Named<'a>>
    requires { HasGoals (document_lists document.now) }
    ensures found { option_map (λ named. record { name = named.name.now; goal = goal_of_parts named.goal.now }) result
        ≡ find (λ named. bytes_eq name.now named.name) (named_goals (document_lists document.now)) }
    ensures over { IfSome result (λ named. IsListable (signature_of document.now.schema) (goal_of_parts named.goal.now)) }
{
    if let Some(rule) = rule_named(document.rules.as_slice(), name) {
        return Some(Named {
            name: rule.name(),
            goal: rule.goal(),
        });
    }
    let watch = watch_named(document.watches.as_slice(), name)?;
    Some(Named {
        name: &watch.name,
        goal: &watch.goal,
    })
}

/// The rule with the name.
fn rule_named<'a>(rules: &'a [Rule], name: &str) -> Option<&'a Rule>
    ensures { option_map (λ rule. rule.now) result ≡ find (λ rule. bytes_eq name.now rule.name) rules.now }
{
    rules.iter().find(|rule| name == rule.name().as_str())
}

/// The watch with the name.
fn watch_named<'a>(watches: &'a [Watch], name: &str) -> Option<&'a Watch>
    ensures { option_map (λ watch. watch.now) result ≡ find (λ watch. bytes_eq name.now watch.name) watches.now }
{
    watches.iter().find(|watch| name == watch.name.as_str())
}
