ghost use Rattle.std.specs.Prelude.{◌≡◌};
ghost use Rattle.bosh_lines.specs.Verbs.{action_of, action_name, verb_name, verb_of};

/// What a line that is about no single deployment begins with.
#[derive(Clone, Copy)]
pub(crate) enum Verb {
    File,
    UploadRelease,
    UploadStemcell,
    UpdateCloudConfig,
    Disks,
    DeleteDisk,
    CleanUp,
    Tasks,
    Task,
    Releases,
    Compiled,
    Together,
    Fail,
    Stop,
    Restart,
    Write,
    Read,
    Show,
    Lose,
    Cloud,
    Generate,
}

/// What is asked of a deployment.
#[derive(Clone, Copy)]
pub(crate) enum Action {
    Deploy,
    Instances,
    Recreate,
    Start,
    Stop,
    DeleteDeployment,
    CloudCheck,
}

pub(crate) const VERBS: [Verb; 21] = [
    Verb::File,
    Verb::UploadRelease,
    Verb::UploadStemcell,
    Verb::UpdateCloudConfig,
    Verb::Disks,
    Verb::DeleteDisk,
    Verb::CleanUp,
    Verb::Tasks,
    Verb::Task,
    Verb::Releases,
    Verb::Compiled,
    Verb::Together,
    Verb::Fail,
    Verb::Stop,
    Verb::Restart,
    Verb::Write,
    Verb::Read,
    Verb::Show,
    Verb::Lose,
    Verb::Cloud,
    Verb::Generate,
];

pub(crate) const ACTIONS: [Action; 7] = [
    Action::Deploy,
    Action::Instances,
    Action::Recreate,
    Action::Start,
    Action::Stop,
    Action::DeleteDeployment,
    Action::CloudCheck,
];

impl Verb {
    fn name(self) -> &'static str
        ensures { result.now ≡ verb_name self }
    {
        match self {
            Verb::File => "file",
            Verb::UploadRelease => "upload-release",
            Verb::UploadStemcell => "upload-stemcell",
            Verb::UpdateCloudConfig => "update-cloud-config",
            Verb::Disks => "disks",
            Verb::DeleteDisk => "delete-disk",
            Verb::CleanUp => "clean-up",
            Verb::Tasks => "tasks",
            Verb::Task => "task",
            Verb::Releases => "releases",
            Verb::Compiled => "compiled",
            Verb::Together => "!together",
            Verb::Fail => "!fail",
            Verb::Stop => "!stop",
            Verb::Restart => "!restart",
            Verb::Write => "!write",
            Verb::Read => "!read",
            Verb::Show => "!show",
            Verb::Lose => "!lose",
            Verb::Cloud => "!cloud",
            Verb::Generate => "!generate",
        }
    }

    /// The verb of a name.
    pub(crate) fn of(text: &[u8]) -> Option<Verb>
        ensures { result ≡ verb_of text.now }
    {
        VERBS
            .iter()
            .copied()
            .find(|verb| verb.name().as_bytes() == text)
    }
}

impl Action {
    fn name(self) -> &'static str
        ensures { result.now ≡ action_name self }
    {
        match self {
            Action::Deploy => "deploy",
            Action::Instances => "instances",
            Action::Recreate => "recreate",
            Action::Start => "start",
            Action::Stop => "stop",
            Action::DeleteDeployment => "delete-deployment",
            Action::CloudCheck => "cloud-check",
        }
    }

    /// The action of a name.
    pub(crate) fn of(text: &[u8]) -> Option<Action>
        ensures { result ≡ action_of text.now }
    {
        ACTIONS
            .iter()
            .copied()
            .find(|action| action.name().as_bytes() == text)
    }
}
