//! The definitions of forms that are the same, and of open and complete lists, computed on small texts. No function
//! here does anything: each has a contract that the check proves by computing.
ghost use Rattle.std.specs.Prelude.{◌≡◌, [], codes, replicate};
ghost use Rattle.rc_base.specs.Token.{tokens, closing, opening};
ghost use Rattle.rc_base.specs.Tree.{word, list, nil, cons};
ghost use Rattle.rc_form.specs.FormFault.{depth, lists, IsFaulty};
ghost use Rattle.rc_form.specs.SameForm.{SameForm, IsAtom};
ghost use Rattle.rc_form.specs.declared.fault.FormKind.TheVariants.{BadByte, Stray, TooDeep};

/// Lists that are open, and top-level lists that are complete.
pub fn counted_lists()
    ensures opened { depth (tokens (codes "(a (b) ((c")) ≡ 3 }
    ensures closed { depth (tokens (codes "(a (b)) ()")) ≡ 0 }
    ensures complete { lists (tokens (codes "(a (b)) () (c (d)")) ≡ 2 }
    ensures inner { lists (tokens (codes "((a) (b) (c)")) ≡ 0 }
    ensures closed_behind { IsFaulty (tokens (codes "(a)")) (closing 3) Stray }
    ensures closed_inside { IsFaulty (tokens (codes "(a (b)")) (closing 6) Stray → ⊥ }
    ensures opened_at_63 { IsFaulty (tokens (replicate 63 40)) (opening 63) TooDeep → ⊥ }
    ensures opened_at_64 { IsFaulty (tokens (replicate 64 40)) (opening 64) TooDeep }
    ensures other_kind { IsFaulty (tokens (codes "(a)")) (closing 3) BadByte → ⊥ }
{}

/// Forms are the same where their words and lists are, wherever they stand.
pub fn same_forms()
    ensures offsets { SameForm (list (cons (word (codes "a") 1 2) nil) 0 3)
        (list (cons (word (codes "a") 7 8) nil) 5 9) }
    ensures words { SameForm (word (codes "a") 0 1) (word (codes "b") 0 1) → ⊥ }
    ensures longer_word { SameForm (word (codes "a") 0 1) (word (codes "aa") 0 2) → ⊥ }
    ensures list_for_word { SameForm (list nil 0 2) (word (codes "a") 0 1) → ⊥ }
    ensures more_parts { SameForm (list nil 0 2) (list (cons (list nil 1 3) nil) 0 4) → ⊥ }
    ensures fewer_parts { SameForm (list (cons (list nil 1 3) nil) 0 4) (list nil 0 2) → ⊥ }
    ensures inner_words { SameForm (list (cons (word (codes "a") 1 2) nil) 0 3)
        (list (cons (word (codes "b") 1 2) nil) 0 3) → ⊥ }
{}

/// An atom has 1 to 64 bytes that may stand in one.
pub fn atoms()
    ensures shortest { IsAtom (codes "!") }
    ensures longest { IsAtom (replicate 64 126) }
    ensures none { IsAtom [] → ⊥ }
    ensures too_long { IsAtom (replicate 65 126) → ⊥ }
    ensures comma { IsAtom (codes "a,b") → ⊥ }
    ensures comment { IsAtom (codes "a;") → ⊥ }
    ensures space { IsAtom (codes " ") → ⊥ }
    ensures delete { IsAtom (replicate 1 127) → ⊥ }
{}
