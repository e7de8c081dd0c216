// A moving body in a tick, but for its joints. Both projections of velocities are avian's (src/dynamics/solver/xpbd/plugin.rs).
ghost use Rattle.std.specs.Prelude.{◌≡◌};
ghost use Rattle.tick.specs.Body.{integrated, angular_change, finished_body};
ghost use Rattle.tick.specs.Parts.{linear_projected, angular_projected, projected};

use solver_body::{BodyState, RigidBody, SolverBody, SolverBodyInertia};
use vector::{Quat, Vec3};

// Gravity is along y.
#[tactic(auto, unfolding(crate::specs::Body::integrated))]
pub fn integrate(body: SolverBody, inertia: SolverBodyInertia, gravity: f32, dt: f32) -> SolverBody
    ensures { result ≡ integrated body inertia gravity dt }
{
    let velocity = body.linear_velocity;
    let linear_velocity = inertia.unlocked_axes(Vec3 {
        x: velocity.x,
        y: velocity.y + gravity * dt,
        z: velocity.z,
    });
    SolverBody {
        linear_velocity,
        angular_velocity: body.angular_velocity,
        delta_position: linear_velocity * dt,
        delta_rotation: Quat::from_scaled_axis(body.angular_velocity * dt),
    }
}

#[tactic(auto, unfolding(crate::specs::Parts::linear_projected))]
pub fn project_linear_velocity(
    mut body: SolverBody,
    pre_solve_delta_position: Vec3,
    dt: f32,
) -> SolverBody
    ensures { result ≡ linear_projected body pre_solve_delta_position dt }
{
    let new_lin_vel = (body.delta_position - pre_solve_delta_position) / dt;
    body.linear_velocity += new_lin_vel;
    body
}

#[tactic(auto, unfolding(crate::specs::Body::angular_change))]
fn angular_change(delta_rot: Quat, dt: f32) -> Vec3
    ensures { result ≡ angular_change delta_rot dt }
{
    let new_ang_vel = 2.0 * delta_rot.xyz() / dt;
    if delta_rot.w < 0.0 {
        return -new_ang_vel;
    }
    new_ang_vel
}

#[tactic(auto, unfolding(crate::specs::Parts::angular_projected))]
pub fn project_angular_velocity(
    mut body: SolverBody,
    pre_solve_delta_rotation: Quat,
    dt: f32,
) -> SolverBody
    ensures { result ≡ angular_projected body pre_solve_delta_rotation dt }
{
    let delta_rot = body.delta_rotation * pre_solve_delta_rotation.inverse();
    body.angular_velocity += angular_change(delta_rot, dt);
    body
}

#[tactic(auto, unfolding(crate::specs::Parts::projected))]
fn project_velocities(pre_solve: SolverBody, body: SolverBody, dt: f32) -> SolverBody
    ensures { result ≡ projected pre_solve body dt }
{
    project_angular_velocity(
        project_linear_velocity(body, pre_solve.delta_position, dt),
        pre_solve.delta_rotation,
        dt,
    )
}

// The pose is that of the centre of mass, moved and turned.
#[tactic(auto, unfolding(crate::specs::Body::finished_body, crate::specs::Parts::projected, crate::specs::Parts::linear_projected, crate::specs::Parts::angular_projected))]
pub fn finish(rigid: RigidBody, pre_solve: SolverBody, body: SolverBody, dt: f32) -> BodyState
    ensures { result ≡ finished_body rigid pre_solve body dt }
{
    let projected = project_velocities(pre_solve, body, dt);
    let rotation = (body.delta_rotation * rigid.rotation).normalize();
    let center = rigid.position + rigid.rotation * rigid.center_of_mass;
    BodyState {
        position: center + body.delta_position - rotation * rigid.center_of_mass,
        rotation,
        linear_velocity: projected.linear_velocity,
        angular_velocity: projected.angular_velocity,
    }
}
