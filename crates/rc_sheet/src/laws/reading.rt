//! Laws of reading: what is read off a form stands for it. No function here does anything.
ghost use Rattle.std.specs.Prelude.{◌≡◌, ℕ, List, Some};
ghost use Rattle.rc_base.specs.Tree.{Tree, word, list, Trees};
ghost use Rattle.rc_sheet_spec.specs.Sheet as sheet;
ghost use Rattle.rc_sheet_spec.specs.Rows.{◌▸◌, End, AtLeast, Row, Atom, Some as Full};
ghost use Rattle.rc_sheet_spec.specs.Naming.{Naming, Scope, Named, Binder, InScope, self_scope};
ghost use Rattle.rc_sheet_spec.specs.StandsExpressions as expressions;
ghost use Rattle.rc_sheet_spec.specs.StandsEffects as effects;
ghost use Rattle.rc_sheet_spec.specs.StandsItems as items;
ghost use Rattle.rc_sheet_spec.specs.Stands.{Stands, StandsBest};
ghost use Rattle.rc_sheet_spec.specs.StandsSetup.{StandsSetup};
ghost use Rattle.rc_sheet.specs.ReadSetup as setup_reading;
ghost use Rattle.rc_sheet.specs.ReadSheet as sheet_reading;
ghost use Rattle.rc_sheet.specs.ReadNames as names;
ghost use Rattle.rc_sheet.specs.ReadExpressions as reading;
ghost use Rattle.rc_sheet.specs.ReadEffects as effect_reading;
ghost use Rattle.rc_sheet.specs.ReadItems as item_reading;

/// Names, variables, owners, holders, locations and stored numbers that are read stand for their forms.
pub fn names_stand()
    ensures name { (words : List (List ℕ)) (tree : Tree) (number : ℕ)
        → names.name_at words tree ≡ Some number → Named words number tree }
    ensures binder { (naming : Naming) (scope : Scope) (tree : Tree) (bound : ℕ)
        → names.binder_at naming.names.vars scope tree ≡ Some bound → Binder naming bound tree }
    ensures variable { (scope : Scope) (sort : sheet.Sort) (bytes : List ℕ) (from to var : ℕ)
        → names.variable_in scope sort bytes ≡ Some var → InScope scope sort var (word bytes from to) }
    ensures owner { (scope : Scope) (tree : Tree) (who : sheet.Who)
        → names.owner_at scope tree ≡ Some who → expressions.StandsOwner scope who tree }
    ensures holder { (scope : Scope) (tree : Tree) (who : sheet.Who)
        → names.holder_at scope tree ≡ Some who → expressions.StandsHolder scope who tree }
    ensures location { (naming : Naming) (scope : Scope) (tree : Tree) (loc : sheet.Loc)
        → names.loc_at naming scope tree ≡ Some loc → expressions.StandsLoc naming scope loc tree }
    ensures location_parts { (naming : Naming) (scope : Scope) (parts : Trees) (from to : ℕ) (loc : sheet.Loc)
        → names.loc_parts naming scope from parts ≡ Some loc
        → expressions.StandsLoc naming scope loc (list parts from to) }
    ensures counter { (naming : Naming) (scope : Scope) (tree : Tree) (num : sheet.Num)
        → names.num_at naming scope tree ≡ Some num → expressions.StandsNum naming scope num tree }
{}

/// Expressions and tests that are read stand for their forms.
pub fn expressions_stand()
    ensures card { (naming : Naming) (scope : Scope) (tree : Tree) (card : sheet.CardExpr)
        → reading.card_at naming scope tree ≡ Some card → expressions.StandsCard naming scope card tree }
    ensures collection { (naming : Naming) (scope : Scope) (tree : Tree) (cards : sheet.CollExpr)
        → reading.coll_at naming scope tree ≡ Some cards → expressions.StandsColl naming scope cards tree }
    ensures collections { (naming : Naming) (scope : Scope) (trees : Trees) (parts : sheet.CollExprs)
        → reading.colls_at naming scope trees ≡ Some parts → expressions.StandColls naming scope parts trees }
    ensures integer { (naming : Naming) (scope : Scope) (tree : Tree) (value : sheet.IntExpr)
        → reading.int_at naming scope tree ≡ Some value → expressions.StandsInt naming scope value tree }
    ensures test { (naming : Naming) (scope : Scope) (tree : Tree) (test : sheet.Test)
        → reading.test_at naming scope tree ≡ Some test → expressions.StandsTest naming scope test tree }
    ensures tests { (naming : Naming) (scope : Scope) (trees : Trees) (tests : sheet.Tests)
        → reading.tests_at naming scope trees ≡ Some tests → expressions.StandTests naming scope tests trees }
    ensures range { (naming : Naming) (scope : Scope) (tree : Tree) (domain : sheet.Domain)
        → reading.range_at naming scope tree ≡ Some domain → expressions.StandsRange naming scope domain tree }
{}

/// Effects, spots, domains and alternatives that are read stand for their forms.
pub fn effects_stand()
    ensures spot { (naming : Naming) (scope : Scope) (tree : Tree) (end : sheet.End) (loc : sheet.Loc)
        → effect_reading.spot_at naming scope tree ≡ Some (end, loc) → effects.StandsSpot naming scope end loc tree }
    ensures effect { (naming : Naming) (scope : Scope) (tree : Tree) (effect : sheet.Effect)
        → effect_reading.effect_at naming scope tree ≡ Some effect → effects.StandsEffect naming scope effect tree }
    ensures effects { (naming : Naming) (scope : Scope) (trees : Trees) (all : sheet.Effects)
        → effect_reading.effects_at naming scope trees ≡ Some all → effects.StandEffects naming scope all trees }
    ensures domain { (naming : Naming) (scope : Scope) (tree : Tree) (domain : sheet.Domain)
        → effect_reading.domain_at naming scope tree ≡ Some domain
        → expressions.StandsDomain naming scope domain tree }
    ensures alternative { (naming : Naming) (scope : Scope) (tree : Tree) (alt : sheet.Alt)
        → effect_reading.alt_at naming scope tree ≡ Some alt → items.StandsAlt naming scope alt tree }
    ensures alternatives { (naming : Naming) (trees : Trees) (alts : List sheet.Alt)
        → effect_reading.alts_at naming trees ≡ Some alts → items.StandAlts naming alts trees }
{}

/// Items, the scoring and the body of a sheet that are read stand for their forms.
pub fn body_stands()
    ensures items { (naming : Naming) (begun behind : item_reading.Begun) (trees : Trees) (all : sheet.SheetItems)
        → item_reading.items_at naming begun trees ≡ Some (all, behind) → items.StandItems naming all End trees }
    ensures score { (naming : Naming) (tree : Tree) (best : sheet.Best) (score : sheet.IntExpr)
        → item_reading.score_at naming tree ≡ Some (best, score)
        → Row (Atom "scoring" ▸ StandsBest best ▸ expressions.StandsInt naming self_scope score ▸ End) tree }
    ensures body { (naming : Naming) (trees : Trees) (all : sheet.SheetItems) (best : sheet.Best)
        (score : sheet.IntExpr)
        → item_reading.body_at naming trees ≡ Some (all, (best, score))
        → AtLeast 2 (items.StandItems naming all
        (Row (Atom "scoring" ▸ StandsBest best ▸ expressions.StandsInt naming self_scope score ▸ End) ▸ End)) trees }
{}

/// The setup of a sheet that is read stands for its lines.
pub fn setup_stands()
    ensures { (naming : Naming) (lines : Trees) (sheet : sheet.Sheet)
        → setup_reading.setup_at naming lines ≡ Some (setup_reading.setup_in sheet)
        → Full (StandsSetup naming sheet) lines }
{}

/// A whole sheet that is read stands for its form.
pub fn sheet_stands()
    ensures { (naming : Naming) (tree : Tree) (sheet : sheet.Sheet)
        → sheet_reading.sheet_at naming tree ≡ Some sheet → Stands sheet tree }
{}
