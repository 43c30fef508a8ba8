//! What the environment says of names and folders.
use std::alloc::{AllocError, Global};
use std::env::{Env, VarError};
use std::rt::Files;
use std::{env, fs, io};

/// A variable of the environment that is asked for.
#[derive(Clone, Copy, PartialEq, Eq)]
pub(crate) enum Variable {
    Rules,
    Model,
    Layout,
    Variant,
    Options,
    Config,
    Home,
    Extra,
    Root,
}

impl Variable {
    /// Whether it gives a name by which a keymap is asked for.
    fn is_name(self) -> bool {
        matches!(
            self,
            Variable::Rules
                | Variable::Model
                | Variable::Layout
                | Variable::Variant
                | Variable::Options
        )
    }
}

/// The variables with their names.
static VARIABLES: [(Variable, &str); 9] = [
    (Variable::Rules, "XKB_DEFAULT_RULES"),
    (Variable::Model, "XKB_DEFAULT_MODEL"),
    (Variable::Layout, "XKB_DEFAULT_LAYOUT"),
    (Variable::Variant, "XKB_DEFAULT_VARIANT"),
    (Variable::Options, "XKB_DEFAULT_OPTIONS"),
    (Variable::Config, "XDG_CONFIG_HOME"),
    (Variable::Home, "HOME"),
    (Variable::Extra, "XKB_CONFIG_EXTRA_PATH"),
    (Variable::Root, "XKB_CONFIG_ROOT"),
];

/// The folder of what a machine's owner adds, where no variable names it.
const EXTRA: &str = "/etc/xkb";

/// The folder of what is installed, where no variable names it.
const ROOT: &str = "/usr/share/X11/xkb";

/// A variable that is set.
#[derive(Drop)]
struct Setting {
    variable: Variable,
    value: String,
}

/// The variables that are set, and the folders that are there.
#[derive(Drop)]
pub struct Environment {
    settings: Vec<Setting>,
    folders: Vec<String>,
    /// Whether it gives the names by which a keymap is asked for.
    gives_names: bool,
}

impl Environment {
    /// No variable is set, and no folder is there.
    pub fn none(alloc: Global) -> Environment {
        Environment {
            settings: Vec::new(alloc),
            folders: Vec::new(alloc),
            gives_names: true,
        }
    }

    /// The same folders, and no names.
    pub fn without_names(self) -> Environment {
        Environment {
            gives_names: false,
            ..self
        }
    }

    pub(crate) fn value(&self, variable: Variable) -> Option<&str> {
        if variable.is_name() && !self.gives_names {
            return None;
        }
        for setting in self.settings.as_slice() {
            if setting.variable == variable {
                return Some(setting.value.as_str());
            }
        }
        None
    }

    /// The folder of what a machine's owner adds.
    pub(crate) fn extra(&self) -> &str {
        self.value(Variable::Extra).unwrap_or(EXTRA)
    }

    /// The folder of what is installed.
    pub(crate) fn root(&self) -> &str {
        self.value(Variable::Root).unwrap_or(ROOT)
    }

    /// The folders in which layouts are looked for where none is named, as far as they are there.
    pub fn folders(&self) -> &[String] {
        self.folders.as_slice()
    }
}

/// The value of a variable; none where it isn't set, or isn't text.
fn read_variable(rt: &(impl Env + AllocGlobal), name: &str) -> Result<Option<String>, AllocError> {
    match env::var(rt, name) {
        Ok(value) => Ok(Some(value)),
        Err(VarError::OutOfMemory) => Err(AllocError),
        Err(_) => Ok(None),
    }
}

fn read_settings(rt: &(impl Env + AllocGlobal)) -> Result<Vec<Setting>, AllocError> {
    let mut settings = Vec::new(rt.alloc());
    for (variable, name) in &VARIABLES {
        if let Some(value) = read_variable(rt, name)? {
            let variable = *variable;
            settings.push(Setting { variable, value })?;
        }
    }
    Ok(settings)
}

/// Whether a folder is at a path.
fn is_folder(rt: &impl Files, path: &str) -> Result<bool, AllocError> {
    match fs::metadata(rt, path) {
        Ok(found) => Ok(found.is_dir()),
        Err(fault) if fault.kind() == io::ErrorKind::OutOfMemory => Err(AllocError),
        Err(_) => Ok(false),
    }
}

/// Adds the folder of a path and what stands after it, where it is there.
fn add_folder(
    rt: &(impl Files + AllocGlobal),
    folders: &mut Vec<String>,
    path: &str,
    behind: &str,
) -> Result<(), AllocError> {
    let path = format!(in rt.alloc(); "{path}{behind}")?;
    if is_folder(rt, path.as_str())? {
        folders.push(path)?;
    }
    Ok(())
}

fn add_own_folders(
    rt: &(impl Files + AllocGlobal),
    environment: &mut Environment,
) -> Result<(), AllocError> {
    let mut folders = Vec::new(rt.alloc());
    let home = environment.value(Variable::Home);
    match (environment.value(Variable::Config), home) {
        (Some(config), _) => add_folder(rt, &mut folders, config, "/xkb")?,
        (None, Some(home)) => add_folder(rt, &mut folders, home, "/.config/xkb")?,
        (None, None) => {}
    }
    if let Some(home) = home {
        add_folder(rt, &mut folders, home, "/.xkb")?;
    }
    add_folder(rt, &mut folders, environment.extra(), "")?;
    add_folder(rt, &mut folders, environment.root(), "")?;
    environment.folders = folders;
    Ok(())
}

/// Reads the variables, and looks which folders are there.
///
/// # Errors
/// Where a growth is refused.
pub fn read_environment(rt: &(impl Env + Files + AllocGlobal)) -> Result<Environment, AllocError> {
    let mut environment = Environment {
        settings: read_settings(rt)?,
        folders: Vec::new(rt.alloc()),
        gives_names: true,
    };
    add_own_folders(rt, &mut environment)?;
    Ok(environment)
}
