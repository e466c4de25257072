use crate::Same;
use gt_types::{Cache, Chain, Field, Program, Root, Structure, Typedef, Word};

impl Same for Word {
    fn is_same(&self, other: &Word) -> bool {
        self == other
    }
}

impl Same for Field {
    fn is_same(&self, other: &Field) -> bool {
        self.name == other.name && self.ty.is_same(&other.ty) && self.active == other.active
    }
}

impl Same for Chain {
    fn is_same(&self, other: &Chain) -> bool {
        self == other
    }
}

impl Same for Structure {
    fn is_same(&self, other: &Structure) -> bool {
        self.name == other.name
            && self.is_union == other.is_union
            && self.desc.is_same(&other.desc)
            && self.fields.is_same(&other.fields)
            && self.chains.is_same(&other.chains)
    }
}

impl Same for Root {
    fn is_same(&self, other: &Root) -> bool {
        self.name == other.name && self.ty.is_same(&other.ty) && self.deletable == other.deletable
    }
}

impl Same for Cache {
    fn is_same(&self, other: &Cache) -> bool {
        self == other
    }
}

impl Same for Typedef {
    fn is_same(&self, other: &Typedef) -> bool {
        self == other
    }
}

impl Same for Program {
    fn is_same(&self, other: &Program) -> bool {
        self.structures.is_same(&other.structures)
            && self.roots.is_same(&other.roots)
            && self.caches.is_same(&other.caches)
            && self.words.is_same(&other.words)
    }
}
