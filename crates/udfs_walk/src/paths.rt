//! Paths, of which those in one directory share the names that lead there.

ghost use Rattle.std.specs.Prelude.{◌≡◌, ◌-◌, ◌∷◌, [], ◌++◌, ◌↔◌, IfOk, IsTrue, MatchOption, None, Some, length, slice_get};
ghost use Rattle.udfs_walk.specs.Paths.{shared};

use std::alloc::{AllocError, Global};
use std::marker::Model;
use std::rc::Rc;
use udfs_osta::Name;

/// The names that lead to a directory, for all paths in it.
pub(crate) type Names = Rc<Vec<Rc<Name>>>;

/// The names on the way from the root to a node, whose own path has none.
#[derive(Debug, Drop)]
pub struct Path {
    /// The names that lead to the node's directory.
    folder: Rc<Vec<Rc<Name>>>,
    /// Its name there; the root has none.
    name: Option<Rc<Name>>,
}

impl Model for Path {
    ghost use Rattle.std.specs.Prelude.{ℕ, List, ◌++◌};
    ghost use Rattle.udfs_walk.specs.Paths.{own, shared};

    ghost Value = { List (List ℕ) };

    ghost view = { λ p. shared p.folder.value.items ++ own p.name };
}

impl Path {
    /// The path of the root.
    pub(crate) fn root(alloc: Global) -> Result<Path, AllocError>
        ensures { IfOk result (λ path. path ≡ []) }
    {
        let folder = Rc::new(alloc, Vec::new(alloc))?;
        Ok(Path { folder, name: None })
    }

    /// The path of a name in a directory.
    pub(crate) fn inside(folder: &Names, name: Rc<Name>) -> Result<Path, AllocError>
        ensures { IfOk result (λ path. path ≡ shared folder.now.value.items ++ name.value ∷ []) }
    {
        let folder = folder.clone()?;
        Ok(Path {
            folder,
            name: Some(name),
        })
    }

    /// Its names, for all paths in the directory that it leads to.
    pub(crate) fn names(&self, alloc: Global) -> Result<Names, AllocError>
        ensures { IfOk result (λ names. shared names.value.items ≡ self.now) }
    {
        let mut names = Vec::with_capacity(alloc, self.len())?;
        for name in self.folder.iter() {
            names.push(name.clone()?)?;
        }
        if let Some(name) = &self.name {
            names.push(name.clone()?)?;
        }
        let names = Rc::new(alloc, names)?;
        Ok(names)
    }

    /// How many names there are.
    pub fn len(&self) -> usize
        ensures { result ≡ length self.now }
    {
        let own = match self.name {
            Some(_) => 1,
            None => 0,
        };
        self.folder.len() + own
    }

    /// Whether there is no name, as on the way to the root.
    pub fn is_empty(&self) -> bool
        ensures { IsTrue result ↔ (self.now ≡ []) }
    {
        self.len() == 0
    }

    /// The name at this place, counted from 0 at the root.
    pub fn get(&self, index: usize) -> Option<&Name>
        ensures { MatchOption result (slice_get self.now index ≡ None) (λ name. slice_get self.now index ≡ Some name.now) }
    {
        if index < self.folder.len() {
            return Some(&*self.folder[index]);
        }
        if index > self.folder.len() {
            return None;
        }
        match &self.name {
            Some(name) => Some(&**name),
            None => None,
        }
    }

    /// The last name.
    pub fn last(&self) -> Option<&Name>
        ensures { MatchOption result (self.now ≡ []) (λ name. slice_get self.now (length self.now - 1) ≡ Some name.now) }
    {
        match self.len() {
            0 => None,
            n => self.get(n - 1),
        }
    }
}
