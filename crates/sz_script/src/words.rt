//! The words of strategies, directions and folds: one table each.

ghost use Rattle.std.specs.Prelude.{◌≡◌};
ghost use Rattle.sz_script.specs.Terms.{name_of_strategy, strategy_named, name_of_dir, dir_named};
ghost use Rattle.sz_script.specs.Terms.{name_of_fold, fold_named};

use sz_spec::{Dir, Fold, Strategy};

/// The strategies, in the order of their table.
const STRATEGIES: [Strategy; 10] = [
    Strategy::Map,
    Strategy::FullOneB,
    Strategy::FullOneF,
    Strategy::FullManyB,
    Strategy::FullManyF,
    Strategy::PayOne,
    Strategy::PayMany,
    Strategy::CompOne,
    Strategy::CompMany,
    Strategy::BlackBox,
];

/// The directions.
const DIRS: [Dir; 2] = [Dir::Back, Dir::Forward];

/// The folds.
const FOLDS: [Fold; 4] = [Fold::Sum, Fold::Min, Fold::Max, Fold::Count];

/// The word of a strategy.
pub fn strategy_name(strategy: Strategy) -> &'static str
    ensures { result.now ≡ name_of_strategy strategy }
{
    match strategy {
        Strategy::Map => "map",
        Strategy::FullOneB => "full_one_b",
        Strategy::FullOneF => "full_one_f",
        Strategy::FullManyB => "full_many_b",
        Strategy::FullManyF => "full_many_f",
        Strategy::PayOne => "pay_one",
        Strategy::PayMany => "pay_many",
        Strategy::CompOne => "comp_one",
        Strategy::CompMany => "comp_many",
        Strategy::BlackBox => "blackbox",
    }
}

/// The strategy of a word, where it is one's.
pub fn strategy_named(word: &str) -> Option<Strategy>
    ensures { result ≡ strategy_named word.now }
{
    STRATEGIES
        .iter()
        .copied()
        .find(|strategy| strategy_name(*strategy) == word)
}

/// The word of a direction.
pub fn dir_name(dir: Dir) -> &'static str
    ensures { result.now ≡ name_of_dir dir }
{
    match dir {
        Dir::Back => "back",
        Dir::Forward => "forward",
    }
}

/// The direction of a word, where it is one's.
pub fn dir_named(word: &str) -> Option<Dir>
    ensures { result ≡ dir_named word.now }
{
    DIRS.iter().copied().find(|dir| dir_name(*dir) == word)
}

/// The word of a fold.
pub fn fold_name(fold: Fold) -> &'static str
    ensures { result.now ≡ name_of_fold fold }
{
    match fold {
        Fold::Sum => "sum",
        Fold::Min => "min",
        Fold::Max => "max",
        Fold::Count => "count",
    }
}

/// The fold of a word, where it is one's.
pub fn fold_named(word: &str) -> Option<Fold>
    ensures { result ≡ fold_named word.now }
{
    FOLDS.iter().copied().find(|fold| fold_name(*fold) == word)
}
