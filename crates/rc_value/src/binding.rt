//! How many variables are bound inside one another.
ghost use Rattle.rc_value.specs.Binding.{CardsBindFew, CollectionsBindFew, NumbersBindFew, TestsBindFew, RangesBindFew, DomainsBindFew, AlternativesBindFew, ChoicesBindFew};

/// In a well formed sheet at most four variables are bound around any place, so that a scope has room for those inside
/// an expression or an alternative. The function does nothing: its contract is a law.
pub fn expressions_bind_few()
    ensures cards { CardsBindFew }
    ensures collections { CollectionsBindFew }
    ensures numbers { NumbersBindFew }
    ensures tests { TestsBindFew }
    ensures ranges { RangesBindFew }
    ensures domains { DomainsBindFew }
    ensures alternatives { AlternativesBindFew }
    ensures choices { ChoicesBindFew }
{}
