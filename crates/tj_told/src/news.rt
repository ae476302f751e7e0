//! What a listener is told.
ghost use Rattle.std.specs.Prelude.{◌≡◌, ◌++◌, [], ◌∷◌, List, IfSome};
ghost use Rattle.std.specs.List.{list_any};
ghost use Rattle.tj_told.specs.ToldNews.{is_value};
ghost use Rattle.tj_told.specs.declared.news.News.{News};
ghost use Rattle.tj_told.specs.declared.news.News.TheVariants as told;

use tj_base::{Items, Name, Shown};
use tj_mean::LinkList;

/// What a listener is told.
#[derive(Drop)]
pub enum News {
    /// Tasks that wait for each other for good, from the least name on.
    Cycle(LinkList),
    /// A promise or a task's result that has no value and gets none.
    Broken(Name),
    /// The value of the cell that is watched by this name.
    Value(Name, Shown),
}

/// All that a listener was told, in order.
pub(crate) type NewsList = Items<News>;

/// Whether a value was told.
pub(crate) fn has_value(told: &[News]) -> bool
    ensures { result ≡ list_any is_value told.now }
{
    told.iter().any(|news| is_value(news))
}

/// Whether a value is what was told.
fn is_value(news: &News) -> bool
    ensures { result ≡ is_value news.now }
{
    match news {
        News::Cycle(_) | News::Broken(_) => false,
        News::Value(_, _) => true,
    }
}

/// The name that was told last, if it was that of a broken cell.
pub(crate) fn broken_last(list: &[News]) -> Option<&Name>
    ensures { IfSome result (λ name. (before : List News)
        × (list.now ≡ before ++ told.Broken name.now ∷ [])) }
{
    match list.last() {
        Some(News::Broken(name)) => Some(name),
        _ => None,
    }
}
